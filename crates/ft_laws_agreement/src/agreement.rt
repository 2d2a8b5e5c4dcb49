//! That clients which took the same entries have the same document.

ghost use Rattle.ft_laws_agreement.specs.ExampleRun.{ExampleRun};
ghost use Rattle.ft_laws_agreement.specs.Agreement.{ClientsAgree, IdleClientsAgree, IdleClientsShow, ReconnectionAgrees, ReconnectionKeepsViews, TwoClientsShowTheSame};

/// Without what is pending, a client's document is the agreed document of the entries that it took.
/// A client with nothing pending has just that document, and shows it. So two clients with nothing
/// pending that took the same entries show the same. So it stays where a client comes online with
/// something pending, and sends that again.
pub fn clients_agree()
    ensures pending { ClientsAgree }
    ensures idle { IdleClientsAgree }
    ensures shown { IdleClientsShow }
    ensures two { TwoClientsShowTheSame }
{}

/// A client that comes online with something pending sees at each of its stages the same elements
/// as before, and agrees as before.
pub fn reconnections_agree()
    ensures views { ReconnectionKeepsViews }
    ensures pending { ReconnectionAgrees }
{}

/// Two runs to which the laws apply: of two insertions at the head, the one with the higher number
/// stands left; so it is where it is sent again under another connection.
pub fn example_run()
    ensures { ExampleRun }
{}
