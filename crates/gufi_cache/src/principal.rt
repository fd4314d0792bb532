//! A principal that searches and keys have in common.
ghost use Rattle.std.specs.Prelude.{◌≡◌, IfOk};

use gufi_access::Principal;
use gufi_base::Memory;
use std::alloc::Global;
use std::marker::Model;
use std::sync::Arc;

/// A principal that stands in memory once, however many searches and keys have it.
#[derive(Drop)]
pub struct SharedPrincipal {
    who: Arc<Principal>,
}

impl Model for SharedPrincipal {
    ghost use Rattle.std.specs.Arc.{arc_value};
    ghost use Rattle.gufi_access.specs.declared.class.Principal.{Principal};

    ghost Value = { Principal };

    ghost view = { λ s. arc_value s.who };
}

impl SharedPrincipal {
    ghost use Rattle.std.specs.Arc.{arc_value};

    /// A principal to be shared: one allocation. After want of memory it is gone.
    pub fn of(alloc: Global, who: Principal) -> Result<SharedPrincipal, Memory>
        ensures { IfOk result (λ shared. shared ≡ who) }
    {
        let who = Arc::new(alloc, who)?;
        Ok(SharedPrincipal { who })
    }

    /// The principal.
    pub fn get(&self) -> &Principal
        ensures { result.now ≡ self.now }
    {
        &self.who
    }

    /// The same principal, once more. Takes no memory.
    pub fn share(&self) -> Result<SharedPrincipal, Memory>
        ensures { IfOk result (λ shared. shared ≡ self.now) }
    {
        let who = Arc::try_clone(&self.who)?;
        Ok(SharedPrincipal { who })
    }
}
