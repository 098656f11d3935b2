// The judging of a password block: what it leaves of security settings and passwords, and how its command ends.
#![tactic(auto)]

ghost use Rattle.std.specs.Prelude.{◌≡◌};
ghost use Rattle.lock.specs.Passwords.{zero_password};
ghost use Rattle.judging.specs.Passwords.{with_user, master_picked, maximum_asked, picked_of, matches_of};
ghost use Rattle.judging.specs.Judging.{opened_of, mismatched_of, enabled_at, disabled_of, judged, set_of, master_at_maximum, unlock_locked, unlock_of, accepts_of, erase_of, disable_of, judge_of};

use lock::{Lock, Purpose, Secrets, Security};

// How a password command ends.
#[derive(Clone, Copy)]
pub enum Verdict {
    EndsWell,
    Aborts,
    Erases,
}

// What a whole password block leaves.
#[derive(Clone, Copy)]
pub struct Judged {
    pub security: Security,
    pub secrets: Secrets,
    pub verdict: Verdict,
}

// A whole password block beside what it is judged by.
#[derive(Clone, Copy)]
pub struct Attempt {
    pub security: Security,
    pub secrets: Secrets,
    pub block: [u8; 512],
}

// UNLOCK's match.
fn opened(security: Security) -> Security
    ensures { result ≡ opened_of security }
{
    security.with_lock(Lock::Open)
}

// UNLOCK's mismatch: one attempt less.
#[tactic(auto, unfolding(crate::specs::Judging::mismatched_of))]
fn mismatched(security: Security) -> Security
    ensures { result ≡ mismatched_of security }
{
    Security {
        attempts: security.attempts.saturating_sub(1),
        ..security
    }
}

// F1h with the user password.
fn enable(security: Security, maximum: bool) -> Security
    ensures { result ≡ enabled_at security maximum }
{
    Security {
        enabled: true,
        maximum,
        ..security
    }
}

// Security off, level High, open.
fn disable(security: Security) -> Security
    ensures { result ≡ disabled_of security }
{
    Security {
        lock: Lock::Open,
        enabled: false,
        maximum: false,
        ..security
    }
}

impl Attempt {
    // Word 0 bit 0: the master password, else the user's.
    #[tactic(auto, unfolding(crate::specs::Passwords::master_picked))]
    fn master_picked(&self) -> bool
        ensures { result ≡ master_picked self.now.block }
    {
        block::word_at(&self.block, 0) % 2 == 1
    }

    // Word 0 bit 8: level Maximum, else High.
    #[tactic(auto, unfolding(crate::specs::Passwords::maximum_asked))]
    fn maximum_asked(&self) -> bool
        ensures { result ≡ maximum_asked self.now.block }
    {
        block::word_at(&self.block, 0) / 256 % 2 == 1
    }

    // The stored password that the block picks.
    #[tactic(auto, unfolding(crate::specs::Passwords::picked_of))]
    fn picked(&self) -> [u8; 32]
        ensures { result ≡ picked_of self.now.secrets self.now.block }
    {
        if self.master_picked() {
            self.secrets.master
        } else {
            self.secrets.user
        }
    }

    // Whether the block's password is the one that it picks.
    #[tactic(auto, unfolding(crate::specs::Passwords::matches_of))]
    fn matches(&self) -> bool
        ensures { result ≡ matches_of self.now.secrets self.now.block }
    {
        block::same(block::password(self.block), self.picked())
    }

    // The master password at level Maximum, which UNLOCK does not take.
    #[tactic(auto, unfolding(crate::specs::Judging::master_at_maximum))]
    fn master_at_maximum(&self) -> bool
        ensures { result ≡ master_at_maximum self.now.security self.now.block }
    {
        self.master_picked() && self.security.maximum
    }

    // F4h's rule: compared at either level, uncompared if security is not enabled.
    #[tactic(auto, unfolding(crate::specs::Judging::accepts_of))]
    fn accepted(&self) -> bool
        ensures { result ≡ accepts_of self.now.security self.now.secrets self.now.block }
    {
        !self.security.enabled || self.matches()
    }

    // The command ends so, with these settings; the passwords stay.
    fn leaves(&self, security: Security, verdict: Verdict) -> Judged
        ensures { result ≡ judged security self.now.secrets verdict }
    {
        Judged {
            security,
            secrets: self.secrets,
            verdict,
        }
    }

    // Security goes off, and the user password with it.
    fn disables(&self, security: Security, verdict: Verdict) -> Judged
        ensures { result ≡ judged (disabled_of security) (with_user self.now.secrets zero_password) verdict }
    {
        let user = lock::no_password();
        Judged {
            security: disable(security),
            secrets: Secrets {
                user,
                ..self.secrets
            },
            verdict,
        }
    }

    // SECURITY SET PASSWORD (F1h).
    #[tactic(auto, unfolding(crate::specs::Judging::set_of))]
    fn set(&self) -> Judged
        ensures { result ≡ set_of self.now.security self.now.secrets self.now.block }
    {
        let password = block::password(self.block);
        let mut secrets = self.secrets;
        let mut security = self.security;
        if self.master_picked() {
            secrets.master = password;
        } else {
            secrets.user = password;
            security = enable(security, self.maximum_asked());
        }
        Judged {
            security,
            secrets,
            verdict: Verdict::EndsWell,
        }
    }

    #[tactic(auto, unfolding(crate::specs::Judging::unlock_locked))]
    fn unlock_locked(&self) -> Judged
        ensures { result ≡ unlock_locked self.now.security self.now.secrets self.now.block }
    {
        if self.master_at_maximum() {
            return self.leaves(self.security, Verdict::Aborts);
        }
        if self.matches() {
            return self.leaves(opened(self.security), Verdict::EndsWell);
        }
        self.leaves(mismatched(self.security), Verdict::Aborts)
    }

    // SECURITY UNLOCK (F2h).
    #[tactic(auto, unfolding(crate::specs::Judging::unlock_of))]
    fn unlock(&self) -> Judged
        ensures { result ≡ unlock_of self.now.security self.now.secrets self.now.block }
    {
        if self.security.lock.locked() {
            return self.unlock_locked();
        }
        self.leaves(self.security, Verdict::EndsWell)
    }

    // SECURITY ERASE UNIT (F4h).
    #[tactic(auto, unfolding(crate::specs::Judging::erase_of))]
    fn erase(&self) -> Judged
        ensures { result ≡ erase_of self.now.security self.now.secrets self.now.block }
    {
        let security = self.security.unprepare();
        if self.accepted() {
            return self.disables(security, Verdict::Erases);
        }
        self.leaves(security, Verdict::Aborts)
    }

    // SECURITY DISABLE PASSWORD (F6h).
    #[tactic(auto, unfolding(crate::specs::Judging::disable_of))]
    fn disable_password(&self) -> Judged
        ensures { result ≡ disable_of self.now.security self.now.secrets self.now.block }
    {
        if self.accepted() {
            return self.disables(self.security, Verdict::EndsWell);
        }
        self.leaves(self.security, Verdict::Aborts)
    }

    // A whole password block.
    #[tactic(auto, unfolding(crate::specs::Judging::judge_of))]
    pub fn judge(&self, purpose: Purpose) -> Judged
        ensures { result ≡ judge_of purpose self.now.security self.now.secrets self.now.block }
    {
        match purpose {
            Purpose::Set => self.set(),
            Purpose::Unlock => self.unlock(),
            Purpose::Erase => self.erase(),
            Purpose::Disable => self.disable_password(),
        }
    }
}
