// A limit that is passed.
use crate::tell::page::Page;
use lucy_word::Limit;

// What a limit counts.
fn counts(limit: Limit) -> &'static str {
    match limit {
        Limit::Text => "bytes of a program text",
        Limit::Tokens => "tokens of one definition, parentheses not counted",
        Limit::Depth => "parentheses that are open at one place",
        Limit::Name => "bytes of a name",
        Limit::Names =>
            "entries of one list of parameters, results, names on the left or arguments",
        Limit::Nodes => "nodes of a program",
        Limit::Written => "bits of a written word",
        Limit::Word => "bits of a word as it is computed, before it is shortened",
        Limit::Places => "places of one node",
        Limit::Needs => "needs of one node",
        Limit::Compare => "instants that decide about two words which are compared",
        Limit::Rate => "numerator and denominator of a clock's rate",
        Limit::Positions => "positions of the inferred clocks of one node",
        Limit::Inequalities => "inequalities of one node",
        Limit::Bits => "bits of all words of a node or of a net",
        Limit::Actors => "actors of the net: places of all instances of nodes",
        Limit::Rings => "rings of the net: reads of all instances of nodes",
        Limit::Slots => "slots of all rings of the net",
        Limit::Schedule => "instants of the prefix and one hyperperiod of a schedule",
        Limit::Events => "operations in the instants of a schedule",
        _ => "what the documents say of it",
    }
}

// What helps where it is passed.
fn remedy(limit: Limit) -> &'static str {
    match limit {
        Limit::Tokens | Limit::Depth => "give parts of the definition names of their own",
        Limit::Name => "a shorter name",
        Limit::Names => "fewer in one list: a node of its own for some of them",
        Limit::Text | Limit::Nodes => "a smaller program",
        Limit::Places | Limit::Needs => "a part of the node as a node of its own",
        Limit::Rate | Limit::Word | Limit::Compare => "words whose lengths share factors",
        Limit::Positions | Limit::Inequalities =>
            "a smaller --scale or --lead, shorter words, or a part of the node as a node of its own",
        Limit::Actors | Limit::Rings => "fewer calls",
        Limit::Slots => "smaller buffers: write the clocks of the inputs",
        Limit::Schedule | Limit::Events =>
            "words whose lengths share factors, so that all comes again sooner",
        _ => "shorter words",
    }
}

// Whether a byte belongs to a name.
fn is_of_name(byte: u8) -> bool {
    byte.is_ascii_alphanumeric() || byte == b'_'
}

// The greatest number of bytes of a name in a text, and where it begins.
fn longest_name(text: &[u8]) -> (usize, usize) {
    let mut longest = 0usize;
    let mut begin = 0usize;
    let mut length = 0usize;
    for (i, byte) in text.iter().enumerate() {
        length = if is_of_name(*byte) {
            length.saturating_add(1)
        } else {
            0
        };
        if length > longest {
            longest = length;
            begin = (i + 1).saturating_sub(length);
        }
    }
    (longest, begin)
}

// Puts a number that is known last, and by how much it passes the limit.
fn put_passed(page: &mut Page<'_>, limit: Limit, number: u64) {
    page.say("here they are ");
    page.number(number);
    page.say(", ");
    page.number(number.saturating_sub(limit.number()));
    page.say(" more\n")
}

/// Puts what a limit counts last that is passed, by how much where that is known, and what helps.
pub(crate) fn put_limit(page: &mut Page<'_>, limit: Limit) {
    page.say("at most ");
    page.number(limit.number());
    page.say(" ");
    page.say(counts(limit));
    page.say("\n");
    if limit == Limit::Text {
        put_passed(page, limit, page.text.len() as u64);
    }
    if limit == Limit::Name {
        let (longest, begin) = longest_name(page.text);
        page.at(begin);
        page.put(b": ");
        put_passed(page, limit, longest as u64);
    }
    page.helps(remedy(limit))
}
