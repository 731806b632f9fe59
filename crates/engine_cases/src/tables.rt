// Tables as long as they may be, and one entry longer.
use crate::asking::{Case, ask_all};
use crate::shorthand::{select_none, select_one, weights};
use graph::graph::Graph;
use query::table::Entry;
use std::io;

// INITIAL, and then entries that each select no variable from the one before.
fn chain(entries: &mut [Entry]) {
    for (before, entry) in entries.iter_mut().skip(1).enumerate() {
        *entry = select_none(before);
    }
}

// Each second entry is the UNION of the two before it.
fn tower(entries: &mut [Entry]) {
    for (before, entry) in entries.iter_mut().skip(2).enumerate().step_by(2) {
        *entry = Entry::Union(before, before + 1);
    }
}

pub(crate) fn tables<G: Graph>(rt: &impl Print, graph: &G) -> io::Result<()> {
    let mut longest = [Entry::Initial; 64];
    chain(&mut longest);
    let mut longer = [Entry::Initial; 65];
    chain(&mut longer);
    let mut unions = [weights(); 64];
    tower(&mut unions);
    unions[63] = select_one(62, 0);
    ask_all(
        rt,
        graph,
        "Tables of 64 entries and of 65",
        &[
            Case::new("INITIAL and 63 SELECTs", &longest, 64),
            Case::new("INITIAL and 64 SELECTs", &longer, 65),
            Case::new("32 TRIPLEs under 31 UNIONs", &unions, 128),
            Case::new("32 TRIPLEs under 31 UNIONs, one place short", &unions, 127),
        ],
    )
}
