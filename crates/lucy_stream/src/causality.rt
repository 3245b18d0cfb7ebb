ghost use Rattle.lucy_stream.specs.Laws.{ItemsNeedWhatWasThere, IteratesHaveNoCycle};

/// Where a form's list has an item, the operands' lists have what this item depends on; so an item that an iterate has
/// depends only on items that the iterate before has.
pub fn items_need_what_was_there()
    ensures { ItemsNeedWhatWasThere }
{}

/// No item that some iterate has reaches itself.
pub fn iterates_have_no_cycle()
    ensures { IteratesHaveNoCycle }
{}
