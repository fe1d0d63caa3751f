//! What can be said of the orders of a scene's members.

ghost use Rattle.std.specs.Prelude.{◌<◌, length, IfOk};
ghost use Rattle.clr_foot.specs.Scenes.{IsReady, model_of, setting_of};
ghost use Rattle.clr_scene_orders.specs.SceneOrders.{IsFinalAt, IsSceneOrder};

use clr_finders::RowFinder;
use clr_foot::Scene;
use clr_needs::Need;
use clr_open_needs::{OpenNeeds, open_needs};
use clr_order_answers::{OrderAnswer, Pair, answer_of};
use clr_rows::RowView;
use std::alloc::{AllocError, Global};

/// What can be said of the orders of a scene's members, by position.
#[derive(Debug, Drop)]
pub enum SceneOrder {
    /// An order of all members, and pairs of which the first goes before the second in it. Under
    /// these pairs every touched need is covered, and without any of them one isn't.
    Order { order: Vec<u16>, pairs: Vec<Pair> },
    /// The least touched need that nothing covers and no member helps, and exactly the members that block it.
    Final { need: Need, members: Vec<u16> },
    /// Each list of all members breaks an open need on the way. Either each of these members alone
    /// blocks an open need that only others of them help, or open needs join these and leave them no
    /// order.
    Stuck(Vec<u16>),
    /// Open needs join these members, more than `MOST_SEARCHED`; nothing is said of orders.
    TooMany(Vec<u16>),
}

/// Returns the open need at a place, with the members that block it.
fn final_at(alloc: Global, found: &OpenNeeds, at: usize) -> Result<SceneOrder, AllocError>
    requires needs { at < length found.now.needs.items }
    requires sides { at < length found.now.sides.items }
    ensures { IfOk result (IsFinalAt found.now at) }
{
    let need = found.needs[at];
    let members = Vec::from_slice(alloc, found.sides[at].blockers.as_slice())?;
    Ok(SceneOrder::Final { need, members })
}

/// Returns what can be said of the orders in which the members of a scene can be merged one after
/// another: `Final` wherever no member helps some open need, with the least such need. Else `Order`
/// where an order works, and `Stuck` where none does; and `TooMany` exactly where no members wait for one
/// another and a knot of more members than `MOST_SEARCHED` is left once members that block no open need
/// went first and members that help none last.
/// For example, where no two mains may have one code, member 0 inserts main 30 with the code of main 1, and member 1
/// gives main 1 another code, the order is 1 and then 0, with this pair. Where two members exchange the codes of
/// mains 1 and 2, they are `Stuck`. Where both insert a main with one code, they are `Final`.
pub fn order_scene<V: RowView, F: RowFinder>(
    alloc: Global,
    scene: &Scene<'_, V, F>,
) -> Result<SceneOrder, AllocError>
    requires ready { IsReady F.settled (model_of V.content scene.now) }
    ensures { IfOk result (IsSceneOrder (setting_of (model_of V.content scene.now))) }
{
    let found = open_needs(alloc, scene)?;
    let answer = answer_of(alloc, found.sides.as_slice(), scene.len() as u16)?;
    match answer {
        OrderAnswer::Order { order, pairs } => Ok(SceneOrder::Order { order, pairs }),
        OrderAnswer::Final(at) => {
            let order = final_at(alloc, &found, at)?;
            Ok(order)
        }
        OrderAnswer::Stuck(members) => Ok(SceneOrder::Stuck(members)),
        OrderAnswer::TooMany(members) => Ok(SceneOrder::TooMany(members)),
    }
}
