//! Which documents are sound.

ghost use Rattle.ft_string.specs.Sound.{ClientTextsAreSound};

/// The document of each client is, with its pending stages: of one that its steps made, or that keeps one which they made. So
/// the calls of a shared text may follow one another as the steps of a client do. Each says that it holds the document of the
/// client's next step then, which is sound again.
pub fn client_texts()
    ensures { ClientTextsAreSound }
{}
