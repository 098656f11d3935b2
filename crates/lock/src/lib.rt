// The lock: its three states, the security settings beside it, the two stored passwords.
#![tactic(auto)]

ghost use Rattle.std.specs.Prelude.{◌≡◌};
ghost use Rattle.lock.specs.Lock.{is_locked, is_frozen, is_open, starting_lock, with_lock, frozen_of, prepared_of, unprepared_of, powered_on, exhausted_of, cannot_erase, security_fits};
ghost use Rattle.lock.specs.Passwords.{zero_password, fresh_secrets};

// The three lock states.
#[derive(Clone, Copy, Default)]
pub enum Lock {
    #[default]
    Open,
    Locked,
    Frozen,
}

// The security settings: the lock, the enabled mark, level Maximum (else High), the attempts left, the preparation by F3h.
#[derive(Clone, Copy, Default)]
pub struct Security {
    pub lock: Lock,
    pub enabled: bool,
    pub maximum: bool,
    pub attempts: u8,
    pub prepared: bool,
}

// The two stored passwords.
#[derive(Clone, Copy)]
pub struct Secrets {
    pub user: [u8; 32],
    pub master: [u8; 32],
}

// What a password block is for: F1h, F2h, F4h, F6h.
#[derive(Clone, Copy)]
pub enum Purpose {
    Set,
    Unlock,
    Erase,
    Disable,
}

// Each state has its word, which rules and contracts use; one function over the state asked for would be `matches!` itself.
impl Lock {
    pub fn open(self) -> bool
        ensures { result ≡ is_open self }
    {
        matches!(self, Lock::Open)
    }

    pub fn locked(self) -> bool
        ensures { result ≡ is_locked self }
    {
        matches!(self, Lock::Locked)
    }

    pub fn frozen(self) -> bool
        ensures { result ≡ is_frozen self }
    {
        matches!(self, Lock::Frozen)
    }
}

#[tactic(auto, unfolding(crate::specs::Lock::starting_lock))]
fn starting_lock(enabled: bool) -> Lock
    ensures { result ≡ starting_lock enabled }
{
    if enabled { Lock::Locked } else { Lock::Open }
}

impl Security {
    // The settings with another lock state.
    pub fn with_lock(self, lock: Lock) -> Self
        ensures { result ≡ with_lock self lock }
    {
        Security { lock, ..self }
    }

    // F5h.
    pub fn freeze(self) -> Self
        ensures { result ≡ frozen_of self }
    {
        self.with_lock(Lock::Frozen)
    }

    // F3h.
    pub fn prepare(self) -> Self
        ensures { result ≡ prepared_of self }
    {
        Security {
            prepared: true,
            ..self
        }
    }

    // The end of a preparation: a rule of its own, which one function of a mark for both would not name.
    pub fn unprepare(self) -> Self
        ensures { result ≡ unprepared_of self }
    {
        Security {
            prepared: false,
            ..self
        }
    }

    // No attempts left.
    #[tactic(auto, unfolding(crate::specs::Lock::exhausted_of))]
    pub fn exhausted(self) -> bool
        ensures { result ≡ exhausted_of self }
    {
        self.attempts == 0
    }

    // What bars ERASE UNIT: no preparation, or no attempts left.
    #[tactic(auto, unfolding(crate::specs::Lock::cannot_erase))]
    pub fn cannot_erase(self) -> bool
        ensures { result ≡ cannot_erase self }
    {
        !self.prepared || self.exhausted()
    }

    // The clauses of answer 2 on attempts and lock.
    #[tactic(auto, unfolding(crate::specs::Lock::security_fits))]
    pub fn fits(self) -> bool
        ensures { result ≡ security_fits self }
    {
        self.attempts <= 5 && (self.enabled || !self.lock.locked())
    }

    // Power-on and hardware reset.
    pub fn power_on(self) -> Self
        ensures { result ≡ powered_on self }
    {
        Security {
            lock: starting_lock(self.enabled),
            attempts: 5,
            prepared: false,
            ..self
        }
    }
}

// The user password of a disk without security.
#[tactic(auto, unfolding(crate::specs::Passwords::zero_password))]
pub fn no_password() -> [u8; 32]
    ensures { result ≡ zero_password }
{
    [0u8; 32]
}

impl Secrets {
    // The passwords of a new disk.
    pub fn fresh(master: [u8; 32]) -> Secrets
        ensures { result ≡ fresh_secrets master }
    {
        Secrets {
            user: no_password(),
            master,
        }
    }
}
