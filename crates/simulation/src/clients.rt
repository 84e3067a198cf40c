//! How many clients a simulation has.

ghost use Rattle.std.specs.Prelude.{◌≡◌, IfSome};
ghost use Rattle.simulation.specs.Clients.{IsClients};

/// The most clients that a simulation has.
pub const MAX_CLIENTS: usize = 8;

/// How many clients a simulation has, 1 to 8.
#[derive(Clone, Copy, Debug)]
pub struct Clients {
    pub many: usize,
    pub ghost range: { IsClients many },
}

impl Clients {
    /// So many, unless they are too few or too many.
    pub fn new(many: usize) -> Option<Clients>
        ensures { IfSome result (λ clients. clients.many ≡ many) }
    {
        if many == 0 || many > MAX_CLIENTS {
            return None;
        }
        Some(Clients { many })
    }
}
