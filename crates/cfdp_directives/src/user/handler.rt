ghost use Rattle.std.specs.Prelude.{◌≡◌, ◌<◌, ◌↔◌, IsSome, IfSome, Some};
ghost use Rattle.cfdp_directives.specs.declared.user.handler.Handler.{Handler};
ghost use Rattle.cfdp_directives.specs.User.Handler.{handler_number};

/// What an entity does if it has waited too long or asked too often (CCSDS 727.0-B-5, 4.8).
#[derive(Clone, Copy, Debug, PartialEq, Eq)]
pub enum Handler {
    /// The transaction is cancelled, and the other entity is notified.
    Cancel,
    /// It is suspended until its user resumes it.
    Suspend,
    /// It goes on, and the count begins again.
    Ignore,
    /// It is given up at once, and the other entity isn't notified.
    Abandon,
}

impl Handler {
    /// Returns the handler with this number, or `None` if it is above 3.
    pub fn from_number(number: u8) -> Option<Handler>
        ensures some { IsSome result ↔ (number < 4) }
        ensures found { IfSome result (λ handler. handler_number handler ≡ number) }
        ensures only { (handler : Handler) → handler_number handler ≡ number → result
            ≡ Some handler }
    {
        match number {
            0 => Some(Handler::Cancel),
            1 => Some(Handler::Suspend),
            2 => Some(Handler::Ignore),
            3 => Some(Handler::Abandon),
            _ => None,
        }
    }

    /// Returns the number by which a configuration names it: 0 to 3. It isn't the code in a fault
    /// handler override (CCSDS 727.0-B-5, 5.4.4), an option that this stack neither sends nor
    /// carries out.
    pub fn number(self) -> u8
        ensures value { result ≡ handler_number self }
        ensures range { result < 4 }
    {
        match self {
            Handler::Cancel => 0,
            Handler::Suspend => 1,
            Handler::Ignore => 2,
            Handler::Abandon => 3,
        }
    }
}

/// What is done about each fault for which an entity has a choice. If any other fault comes, it
/// cancels.
#[derive(Clone, Copy, Debug, PartialEq, Eq)]
pub struct Handlers {
    /// An EOF or a Finished was sent as often as its limit allows, and not acknowledged: condition
    /// 1.
    pub ack: Handler,
    /// NAKs were sent as often as their limit allows, and nothing new came: condition 7.
    pub nak: Handler,
    /// No PDU of the transaction was received for the time of inactivity: condition 8.
    pub inactivity: Handler,
}

impl Default for Handlers {
    ghost use Rattle.std.specs.Prelude.{◌≡◌};
    ghost use Rattle.cfdp_directives.specs.User.Handler.{default_handlers};

    ghost is_default = { λ handlers. handlers ≡ default_handlers };

    /// Returns handlers that each cancel the transaction.
    fn default() -> Handlers {
        Handlers {
            ack: Handler::Cancel,
            nak: Handler::Cancel,
            inactivity: Handler::Cancel,
        }
    }
}
