//! The first words of the lines of a script.
ghost use Rattle.std.specs.Prelude.{◌≡◌};
ghost use Rattle.scripts.specs.Orders.{order_named};

#[derive(Clone, Copy)]
pub(crate) enum Order {
    Module,
    Send,
    Type,
    Byte,
    Tick,
    Levels,
    PowerUp,
    Room,
    Lent,
    Fault,
    State,
}

impl Order {
    // The order that a word names.
    pub(crate) fn named(word: &[u8]) -> Option<Order>
        ensures { result ≡ order_named word.now }
    {
        match word {
            b"module" => Some(Order::Module),
            b"send" => Some(Order::Send),
            b"type" => Some(Order::Type),
            b"byte" => Some(Order::Byte),
            b"tick" => Some(Order::Tick),
            b"levels" => Some(Order::Levels),
            b"power-up" => Some(Order::PowerUp),
            b"room" => Some(Order::Room),
            b"lent" => Some(Order::Lent),
            b"fault" => Some(Order::Fault),
            b"state" => Some(Order::State),
            _ => None,
        }
    }
}
