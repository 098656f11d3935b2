// The clauses of a disk's shape, whichever device of its cable is selected: nothing here looks at DEV.
#![tactic(auto)]

ghost use Rattle.std.specs.Prelude.{◌≡◌};
ghost use Rattle.shape.specs.Shape.{run_fits, password_fits, transfer_fits, held_fits, parts_fit};

use address::Address;
use face::{Front, Hot, Run, Transfer};
use lock::{Purpose, Security};
use settled::Settled;

// A sector transfer: not while locked, and its current sector's address names a sector.
#[tactic(auto, unfolding(crate::specs::Shape::run_fits))]
fn run_fits(settled: Settled, run: Run) -> bool
    ensures { result ≡ run_fits settled run }
{
    !settled.security.lock.locked()
        && matches!(transfers::located(settled, run.at), Address::Names(_))
}

// A password transfer: not while frozen; SET and DISABLE not while locked; UNLOCK and ERASE UNIT not without attempts; ERASE UNIT
// not without preparation.
#[tactic(auto, unfolding(crate::specs::Shape::password_fits))]
fn password_fits(security: Security, purpose: Purpose) -> bool
    ensures { result ≡ password_fits security purpose }
{
    let lock = security.lock;
    if lock.frozen() {
        return false;
    }
    match purpose {
        Purpose::Set | Purpose::Disable => lock.open(),
        Purpose::Unlock => !security.exhausted(),
        Purpose::Erase => !security.cannot_erase(),
    }
}

fn transfer_fits(settled: Settled, transfer: Transfer) -> bool
    ensures { result ≡ transfer_fits settled transfer }
{
    match transfer {
        Transfer::Reading(r) | Transfer::Writing(r) => run_fits(settled, r),
        Transfer::TakingPassword(b) => password_fits(settled.security, b.purpose),
        _ => true,
    }
}

// No transfer while reset is held.
#[tactic(auto, unfolding(crate::specs::Shape::held_fits))]
fn held_fits(hot: Hot) -> bool
    ensures { result ≡ held_fits hot }
{
    !hot.signals.held || hot.idle()
}

// The clauses of answer 2, but for DEV.
#[tactic(auto, unfolding(crate::specs::Shape::parts_fit))]
pub fn fits(front: Front) -> bool
    ensures { result ≡ parts_fit front.settled front.hot }
{
    front.settled.fits() && held_fits(front.hot) && transfer_fits(front.settled, front.hot.transfer)
}
