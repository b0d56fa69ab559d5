//! Rows of the trees that cost the logarithm, of the pool of nodes and the order under them, and calls at random on both
//! forms of the trees, which must answer alike. With a word of any kind it measures what calls cost instead.
#![tactic(auto)]

ghost use Rattle.std.specs.Prelude.{◌≡◌, ◌<◌};

mod bench;
mod both;
mod calls;
mod orders;
mod pools;
mod random;
mod runs;

use bench::measure;
use calls::RowCalls;
use range_tree::RangeTrees;
use row_tables::call_rows;
use seg_trees::{PlainTrees, Steps};
use std::env::Env;
use std::marker::Brand;
use std::rt::{Clock, Files};
use std::sync::ledger::{Blank, Ledger};
use std::{env, io};

/// The rows, and where a word is given what calls cost, with the steps of searches counted in a ledger of their own.
fn call_trees<L: Ledger, R: Files + Env + Print + Clock + AllocGlobal>(
    rt: &R,
    blank: Blank,
) -> io::Result<()>
    requires name { blank.name ≡ L.name }
    requires parts { blank.parts ≡ L.parts }
    requires some { 0 < blank.parts }
{
    let mut steps = Steps::<L>::new(blank);
    if env::args(rt)?.count() > 1 {
        measure::<RangeTrees, L, R>(rt, "RangeTrees", 1_000_000, &mut steps)?;
        return measure::<PlainTrees, L, R>(rt, "PlainTrees", 20_000, &mut steps);
    }
    call_rows(rt, &mut RowCalls::new(steps), "trees.txt")
}

fn main(rt: HostRuntime) -> io::Result<()> {
    call_trees::<Brand, HostRuntime>(&rt, Blank::new(1))
}
