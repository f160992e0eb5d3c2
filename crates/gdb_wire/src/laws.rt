// Laws of items, of replies and of requests. Each function does nothing; its contract is the law.
ghost use Rattle.gdb_wire.specs.Laws.{OneItem, NoPartialItem, OneReading, SomeReading, PiecesJoin, EscapesComeBack, RepliesAreItems, OneRequest, SomeRequest};

/// Bytes have at most one item at their front, whatever follows. An incomplete item is none.
pub fn items_are_told_apart()
    ensures one { OneItem }
    ensures none { NoPartialItem }
{}

/// All bytes are items and an incomplete one, in one way.
pub fn bytes_have_one_reading()
    ensures one { OneReading }
    ensures some { SomeReading }
{}

/// The items don't depend on how the bytes are split into pieces.
pub fn pieces_join()
    ensures { PiecesJoin }
{}

/// The packet of a reply reads as the reply.
pub fn replies_are_read_again()
    ensures escapes { EscapesComeBack }
    ensures packets { RepliesAreItems }
{}

/// Every text makes exactly one request.
pub fn texts_ask_for_one_thing()
    ensures one { OneRequest }
    ensures some { SomeRequest }
{}
