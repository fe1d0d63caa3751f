//! The map of a plan.

ghost use Rattle.std.specs.Prelude.{◌≡◌, ◌++◌, codes, string_bytes, IfOk};
ghost use Rattle.clr_merge_sets.specs.MemberChanges.{AreMembers, set_of};
ghost use Rattle.clr_plan.specs.PlanLines.{plan_text};
ghost use Rattle.clr_map_frames.specs.Headings.{design_names_text};
ghost use Rattle.clr_plan_precedences.specs.PlanPrecedences.{ArePrecedencesOfPlan};
ghost use Rattle.clr_plan_map.specs.Maps.{AddsVerdict, IsMapOfChanges, ShowsTurnsLast, TellsNames, plan_word};
ghost use Rattle.clr_plan_map.specs.Sentences.{plan_sentence};

use crate::labels::add_labels;
use crate::sentences::plan_sentence;
use crate::titles::{description_of, plan_title, plan_word, verdict_layer};
use crate::turns::turns_layer;
use clr_cert::Precedences;
use clr_drawing::{Area, GROUND, PAPER, Sketch};
use clr_engine::Office;
use clr_map_frames::{
    add_axes, add_grid, add_grounds, add_heading, add_inset, add_outlines, has_frames, legend_of,
    names_text,
};
use clr_map_marks::{add_haloes, add_line_marks, add_lines, add_mark, add_point_marks, add_signs};
use clr_map_scenes::{Cause, Designs, FOOT, Field, MapScene, PAGE_WIDTH};
use clr_member_changes::MemberChanges;
use clr_merge_sets::rows_of_root;
use clr_plan::Plan;
use clr_plan_causes::{cause_of, leaders_of};
use clr_plan_precedences::precedences_of_plan;
use clr_plan_sentences::Setting;
use clr_svg::{Ink, Layer, PagePoint, Pixels, SvgPage, write_page};
use std::alloc::{AllocError, Global};

/// What a map says of a plan beside its verdict: the names of the designs, and the plan in a sentence or two.
#[derive(Drop)]
struct MapWords {
    names: String,
    sentence: String,
}

/// What is drawn of a plan beside its verdict.
#[derive(Drop)]
struct Drawn {
    height: Pixels,
    layers: Vec<Layer>,
    words: MapWords,
    before: Option<Precedences>,
}

/// Returns the sheet of the page, and the ground of the map.
fn paper(scene: &MapScene<'_>, height: Pixels) -> Result<Layer, AllocError> {
    let mut sketch = Sketch::new(scene.field.alloc);
    let corner = PagePoint {
        x: Pixels::ZERO,
        y: Pixels::ZERO,
    };
    let page = Area {
        left: corner.x,
        top: corner.y,
        right: PAGE_WIDTH,
        bottom: height,
    };
    sketch.add_area(page, Pixels::ZERO, Ink::of_area(PAPER))?;
    sketch.add_area(scene.frame(), Pixels::whole(6), Ink::of_area(GROUND))?;
    Ok(sketch.into_layer())
}

/// Returns what is seen through the window of the map.
fn inner_layer(scene: &MapScene<'_>) -> Result<Layer, AllocError> {
    let mut sketch = Sketch::new(scene.field.alloc);
    if has_frames(scene) {
        add_grounds(&mut sketch, scene)?;
    }
    add_grid(&mut sketch, scene)?;
    if let Some(cause) = scene.cause {
        add_haloes(&mut sketch, scene, cause)?;
    }
    add_lines(&mut sketch, scene)?;
    add_signs(&mut sketch, scene)?;
    if has_frames(scene) {
        add_outlines(&mut sketch, scene)?;
    }
    add_line_marks(&mut sketch, scene)?;
    add_point_marks(&mut sketch, scene)?;
    if let Some(cause) = scene.cause {
        add_mark(&mut sketch, scene, cause)?;
    }
    Ok(sketch.into_layer_within(scene.frame()))
}

/// Returns how high the page is: as the map needs it, or as what stands beside it and goes so far down, where this says who goes before whom.
fn height_of(scene: &MapScene<'_>, before: &Option<Precedences>, down: Pixels) -> Pixels {
    let foot = scene.frame().bottom + FOOT;
    if before.is_some() && foot < down {
        down
    } else {
        foot
    }
}

/// Returns what stands over the map and round it, where the legend goes so far down.
fn outer_layer(
    scene: &MapScene<'_>,
    office: &Office,
    plan: &Plan,
    words: &MapWords,
    down: Pixels,
) -> Result<Layer, AllocError> {
    let mut sketch = Sketch::new(scene.field.alloc);
    add_axes(&mut sketch, scene)?;
    add_labels(&mut sketch, scene, office, plan)?;
    add_heading(
        &mut sketch,
        plan_word(plan),
        words.names.as_str(),
        words.sentence.as_str(),
    )?;
    add_inset(&mut sketch, scene, down)?;
    Ok(sketch.into_layer())
}

/// Returns what is drawn of a plan with this cause, if it has one, below these words: a layer each, of which the last says who goes before whom, and how
/// high the page is.
fn drawn_layers(
    field: Field<'_>,
    office: &Office,
    plan: &Plan,
    cause: Option<&Cause>,
    words: &MapWords,
    before: &Option<Precedences>,
) -> Result<(Vec<Layer>, Pixels), AllocError>
    ensures { IfOk result (λ drawn. ShowsTurnsLast before.now drawn.0.items) }
{
    let scene = MapScene::new(field, cause);
    let (legend, legend_end) = legend_of(&scene)?;
    let (turns, down) = turns_layer(field.alloc, before, legend_end)?;
    let height = height_of(&scene, before, down);
    let mut layers = Vec::with_capacity(field.alloc, 5)?;
    layers.push(paper(&scene, height)?)?;
    layers.push(inner_layer(&scene)?)?;
    layers.push(outer_layer(&scene, office, plan, words, down)?)?;
    layers.push(legend)?;
    layers.push(turns)?;
    Ok((layers, height))
}

/// Returns the names of the designs, and the plan in a sentence or two.
fn words_of(setting: Setting<'_>, field: Field<'_>, plan: &Plan) -> Result<MapWords, AllocError>
    ensures names { IfOk result (λ words. string_bytes words.names ≡ design_names_text field.entry.designs.now) }
    ensures sentence { IfOk result (λ words. string_bytes words.sentence
        ≡ plan_sentence setting.entry.office.now (set_of setting.entry.members.now) setting.entry.members.now.changes.items plan.now) }
{
    Ok(MapWords {
        names: names_text(field)?,
        sentence: plan_sentence(setting, plan)?,
    })
}

/// Returns what is drawn of a plan.
fn drawn_plan(setting: Setting<'_>, plan: &Plan) -> Result<Drawn, AllocError>
    requires { AreMembers setting.office.now (set_of setting.members.now) setting.members.now }
    ensures names { IfOk result (λ drawn. TellsNames (set_of setting.entry.members.now) plan.now (string_bytes drawn.words.names)) }
    ensures sentence { IfOk result (λ drawn. string_bytes drawn.words.sentence
        ≡ plan_sentence setting.entry.office.now (set_of setting.entry.members.now) setting.entry.members.now.changes.items plan.now) }
    ensures ordered { IfOk result (λ drawn. ArePrecedencesOfPlan setting.entry.office.now (set_of setting.entry.members.now) plan.now drawn.before) }
    ensures shown { IfOk result (λ drawn. ShowsTurnsLast drawn.before drawn.layers.items) }
{
    let Setting {
        alloc,
        office,
        members,
    } = setting;
    let rows = rows_of_root(alloc, office, members.root)?;
    let designs = Designs::new(alloc, members, leaders_of(plan))?;
    let field = Field {
        alloc,
        schema: office.schema(),
        rows: &rows,
        designs: &designs,
    };
    let words = words_of(setting, field, plan)?;
    let cause = cause_of(alloc, office, members, plan)?;
    let before = precedences_of_plan(alloc, office, members, plan)?;
    let (layers, height) = drawn_layers(field, office, plan, cause.as_ref(), &words, &before)?;
    Ok(Drawn {
        height,
        layers,
        words,
        before,
    })
}

/// Layers with the word for what a plan says over them.
fn with_verdict(
    alloc: Global,
    plan: &Plan,
    mut layers: Vec<Layer>,
) -> Result<Vec<Layer>, AllocError>
    ensures { IfOk result (λ shown. AddsVerdict plan.now layers.items shown.items) }
{
    let verdict = verdict_layer(alloc, plan)?;
    layers.push(verdict)?;
    Ok(layers)
}

/// Returns the page of what is drawn of a plan, with its verdict over it.
fn page_of(setting: Setting<'_>, plan: &Plan, drawn: Drawn) -> Result<SvgPage, AllocError>
    ensures title { IfOk result (λ page. page.title.items ≡ plan_word plan.now ++ codes ": " ++ string_bytes drawn.words.names) }
    ensures description { IfOk result (λ page. page.description.items ≡ string_bytes drawn.words.sentence ++ codes "\n"
        ++ plan_text setting.entry.office.now.schema (set_of setting.entry.members.now).members (set_of setting.entry.members.now).root plan.now) }
    ensures shown { IfOk result (λ page. AddsVerdict plan.now drawn.layers.items page.layers.items) }
{
    let Setting {
        alloc,
        office,
        members,
    } = setting;
    let title = plan_title(alloc, plan, drawn.words.names.as_str())?;
    let sentence = drawn.words.sentence.as_str();
    let (root, names) = (members.root, members.names);
    let description = description_of(alloc, office.schema(), names, root, plan, sentence)?;
    let layers = with_verdict(alloc, plan, drawn.layers)?;
    Ok(SvgPage {
        width: PAGE_WIDTH,
        height: drawn.height,
        title,
        description,
        layers,
    })
}

/// Returns the map of a plan of members of a root, as the text of a page of vector graphics. Its title is the word for what the plan says, with
/// the names of the designs. Its last layer shows that word alone, in the colour of what the plan says. Its description is the plan in a sentence
/// or two, and then the lines of the plan. Each text of the office is escaped. The rows are those of the root, with what each member changes over
/// them; the map shows what is round the cause, or else round the changes. Where the plan is blocked and an order of the members is found, lines
/// beside the map say which goes before which; of more than twelve only the first twelve, and how many more there are. The changes are to be those
/// that the members make in the office.
pub fn plan_map(
    alloc: Global,
    office: &Office,
    members: &MemberChanges<'_>,
    plan: &Plan,
) -> Result<Vec<u8>, AllocError>
    requires { AreMembers office.now (set_of members.now) members.now }
    ensures map { IfOk result (λ text. IsMapOfChanges office.now (set_of members.now) members.now.changes.items plan.now text.items) }
{
    let setting = Setting {
        alloc,
        office,
        members,
    };
    let drawn = drawn_plan(setting, plan)?;
    let page = page_of(setting, plan, drawn)?;
    let text = write_page(alloc, &page)?;
    Ok(text)
}
