//! Laws, each the contract of a function that does nothing.

ghost use Rattle.ft_json.specs.Laws.{TextsReadBack, TextsTellApart, OrdersAgree};

/// A value that is kept or written has one text, and no other value has it: the text reads back as
/// the value.
pub fn texts_stand_for_values()
    ensures read_back { TextsReadBack }
    ensures tell_apart { TextsTellApart }
{}

/// Keys are in one order by their characters and by their bytes.
pub fn keys_have_one_order()
    ensures { OrdersAgree }
{}
