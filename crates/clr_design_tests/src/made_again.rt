//! Designs that stand and are brought again, and designs that are brought together with others.

use crate::edits::edits;
use crate::made_since::{DESIGN, Times, layer_options, layers_of, opened, perform, texts_of};
use clr_call_test_kit::Dice;
use clr_desk_designs::{LayeredDesign, answer_design_again, answer_designs_since};
use clr_desk_layers::GivenLayer;
use clr_office_reports::dump_text;
use clr_rows::Words;
use std::alloc::Global;
use std::test::Fail;

/// Returns the text of the office from which LIVE had moved on, in which the design was edited once more, as dice choose.
fn edited_later(alloc: Global, times: &Times, seed: u64) -> Option<Vec<u8>> {
    let mut dice = Dice::new(seed ^ 1000);
    let mut office = opened(alloc, times.moved.as_slice())?;
    perform(alloc, &mut office, "mark,Design,before\n")?;
    let later = edits(alloc, &mut dice, DESIGN, 6).ok()?;
    perform(alloc, &mut office, later.as_str())?;
    dump_text(alloc, &office).ok()
}

/// Returns what is printed of the design, brought again as layers over an office: the office, or its script.
fn brought_again(
    alloc: Global,
    office: &[u8],
    is_script: bool,
    layers: &[GivenLayer],
) -> Option<Vec<u8>> {
    let options = layer_options();
    let print = answer_design_again(alloc, office, DESIGN, is_script, options, true, layers);
    Some(print.ok()?.text)
}

/// Returns the text of an office after a script.
fn after_script(alloc: Global, office: &[u8], script: &[u8]) -> Option<Vec<u8>> {
    let mut office = opened(alloc, office)?;
    perform(alloc, &mut office, str::from_utf8(script).ok()?)?;
    dump_text(alloc, &office).ok()
}

/// Returns whether the design of a seed, which was edited once more, is as before once its layers are brought again, by the office that is printed and by
/// the script.
fn is_as_before(alloc: Global, seed: u64) -> Option<bool> {
    let times = texts_of(alloc, seed)?;
    let layers = layers_of(alloc, times.made.as_slice())?;
    let later = edited_later(alloc, &times, seed)?;
    let again = brought_again(alloc, later.as_slice(), false, layers.as_slice())?;
    let script = brought_again(alloc, later.as_slice(), true, layers.as_slice())?;
    let by_script = after_script(alloc, later.as_slice(), script.as_slice())?;
    let before = times.moved.as_slice();
    Some(again.as_slice() == before && by_script.as_slice() == before)
}

/// Returns whether the design of a seed is brought as by commands, as the only one of several.
fn is_brought_among_several(alloc: Global, seed: u64) -> Option<bool> {
    let times = texts_of(alloc, seed)?;
    let mut designs = Vec::new(alloc);
    designs
        .push(LayeredDesign {
            name: Words::from_str(alloc, DESIGN).ok()?,
            layers: layers_of(alloc, times.made.as_slice())?,
        })
        .ok()?;
    let print = answer_designs_since(
        alloc,
        times.without.as_slice(),
        times.copied.as_slice(),
        layer_options(),
        true,
        designs.as_slice(),
    );
    Some(print.ok()?.text.as_slice() == times.moved.as_slice())
}

#[test]
fn designs_come_again(rt: HostRuntime) -> Result<(), Fail> {
    for seed in 0..50 {
        assert_eq!(rt; is_as_before(rt.alloc(), seed), Some(true), "seed {seed}");
    }
    Ok(())
}

#[test]
fn designs_come_together(rt: HostRuntime) -> Result<(), Fail> {
    for seed in 0..50 {
        assert_eq!(rt;
            is_brought_among_several(rt.alloc(), seed),
            Some(true),
            "seed {seed}"
        );
    }
    Ok(())
}
