//! Whether two messages are equal.

ghost use Rattle.std.specs.Prelude.{◌≡◌};
ghost use Rattle.ft_seqr.specs.SameMessage.{same_message};

use ft_base::Datum;
use ft_msg::Message;

/// Whether the messages are equal.
pub fn same_message(a: &Message, b: &Message) -> bool
    ensures { result ≡ same_message a.now b.now }
{
    a.same(b)
}
