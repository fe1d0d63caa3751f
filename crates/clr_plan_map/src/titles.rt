//! The words of a map: its verdict, its title and its description.

ghost use Rattle.std.specs.Prelude.{◌≡◌, ◌++◌, codes, map, IfOk};
ghost use Rattle.clr_plan.specs.PlanLines.{plan_text};
ghost use Rattle.clr_drawing.specs.Sketches.{IsWords};
ghost use Rattle.clr_svg.specs.declared.elements.Anchor.TheVariants as anchor;
ghost use Rattle.clr_svg.specs.declared.elements.Weight.TheVariants as weight;
ghost use Rattle.clr_plan_map.specs.Maps.{ShowsVerdict, plan_colour, plan_word, verdict_size, verdict_spot};

use clr_drawing::{ALARM, CAUTION, CLEAR};
use clr_map_frames::VERDICT_SIZE;
use clr_map_scenes::LEFT;
use clr_plan::{Plan, plan_lines};
use clr_rows::Schema;
use clr_svg::{Anchor, Colour, Element, Label, Layer, PagePoint, Pixels, Weight};
use std::alloc::{AllocError, Global};

/// Where the word for what a plan says begins.
const VERDICT_SPOT: PagePoint = PagePoint {
    x: LEFT,
    y: Pixels { tenths: 460 },
};

/// Returns the word for what a plan says: that its members are cleared, that they aren't, that they weren't looked at, or that memory ran out.
pub fn plan_word(plan: &Plan) -> &'static str
    ensures { result.now ≡ plan_word plan.now }
{
    match plan {
        Plan::Cleared(_) => "Cleared",
        Plan::Blocked { .. } => "Not cleared",
        Plan::Unfit(_) => "Not looked at",
        Plan::OutOfMemory => "Not decided",
    }
}

/// Returns the colour of the word for what a plan says.
fn plan_colour(plan: &Plan) -> Colour
    ensures { result ≡ plan_colour plan.now }
{
    match plan {
        Plan::Cleared(_) => CLEAR,
        Plan::Blocked { .. } => ALARM,
        Plan::Unfit(_) | Plan::OutOfMemory => CAUTION,
    }
}

/// Returns the word for what a plan says, as a label.
fn verdict_label(alloc: Global, plan: &Plan) -> Result<Label, AllocError>
    ensures { IfOk result (IsWords (plan_word plan.now) verdict_spot verdict_size (plan_colour plan.now) anchor.Start weight.Strong) }
{
    let words = String::from_str(alloc, plan_word(plan))?;
    Ok(Label {
        at: VERDICT_SPOT,
        anchor: Anchor::Start,
        size: VERDICT_SIZE,
        weight: Weight::Strong,
        colour: plan_colour(plan),
        words,
    })
}

/// Returns the layer with the word for what a plan says.
pub(crate) fn verdict_layer(alloc: Global, plan: &Plan) -> Result<Layer, AllocError>
    ensures { IfOk result (ShowsVerdict plan.now) }
{
    let label = verdict_label(alloc, plan)?;
    let mut elements = Vec::new(alloc);
    elements.push(Element::Words(label))?;
    Ok(Layer {
        window: None,
        elements,
    })
}

/// Returns the title of what shows a plan: the word for what the plan says, and behind a colon names or what else it is about.
pub fn plan_title(alloc: Global, plan: &Plan, names: &str) -> Result<Vec<u8>, AllocError>
    ensures { IfOk result (λ title. title.items ≡ plan_word plan.now ++ codes ": " ++ names.now) }
{
    let mut title = Vec::from_slice(alloc, plan_word(plan).as_bytes())?;
    title.extend_from_slice(b": ")?;
    title.extend_from_slice(names.as_bytes())?;
    Ok(title)
}

/// Returns the description of a map: a sentence, and the lines of the plan.
pub(crate) fn description_of(
    alloc: Global,
    schema: &Schema,
    members: &[&str],
    root: &str,
    plan: &Plan,
    sentence: &str,
) -> Result<Vec<u8>, AllocError>
    ensures { IfOk result (λ text. text.items
        ≡ sentence.now ++ codes "\n" ++ plan_text schema.now (map (λ name. name.now) members.now) root.now plan.now) }
{
    let lines = plan_lines(alloc, schema, members, root, plan)?;
    let mut text = Vec::from_slice(alloc, sentence.as_bytes())?;
    text.extend_from_slice(b"\n")?;
    text.extend_from_slice(lines.as_slice())?;
    Ok(text)
}
