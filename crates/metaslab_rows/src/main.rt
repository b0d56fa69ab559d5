//! Rows of one metaslab, call by call, and of the trees of runs that it keeps, each table over both forms of the trees.
#![tactic(auto)]

ghost use Rattle.std.specs.Prelude.{◌≡◌, ◌<◌};

mod metaslabs;
mod trees;

use metaslabs::MetaslabCalls;
use range_tree::RangeTrees;
use row_tables::call_rows;
use seg_trees::{PlainTrees, SegTrees, Steps};
use std::io;
use std::marker::Brand;
use std::rt::Files;
use std::sync::ledger::{Blank, Ledger};
use trees::TreeCalls;

/// The rows of trees and of metaslabs over one form of the trees, whose steps go on from where they are.
fn call_form<T: SegTrees + Drop, L: Ledger, R: Files + Print + AllocGlobal>(
    rt: &R,
    steps: Steps<L>,
) -> io::Result<Steps<L>> {
    let mut calls = TreeCalls::<T, L>::new(rt.alloc(), steps);
    call_rows(rt, &mut calls, "trees.txt")?;
    call_rows(rt, &mut MetaslabCalls::<T>::new(), "metaslabs.txt")?;
    Ok(calls.into_steps())
}

/// The rows over both forms, with the steps counted in a ledger of their own.
fn call_forms<L: Ledger, R: Files + Print + AllocGlobal>(rt: &R, blank: Blank) -> io::Result<()>
    requires name { blank.name ≡ L.name }
    requires parts { blank.parts ≡ L.parts }
    requires some { 0 < blank.parts }
{
    let steps = call_form::<PlainTrees, L, R>(rt, Steps::new(blank))?;
    call_form::<RangeTrees, L, R>(rt, steps)?;
    Ok(())
}

fn main(rt: HostRuntime) -> io::Result<()> {
    call_forms::<Brand, HostRuntime>(&rt, Blank::new(1))
}
