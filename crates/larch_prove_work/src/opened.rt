ghost use Rattle.std.specs.Prelude.{◌≡◌, ◌++◌, ◌∷◌, IfOk, OnOk, map, reverse};
ghost use Rattle.std.specs.Option.{option_copied};
ghost use Rattle.larch_prove_settling.specs.ProveBoxesBoxLists.{box_list};
ghost use Rattle.larch_prove_settling.specs.ProveDraftDraft.{below_in};
ghost use Rattle.larch_prove_work.specs.Opened.{boxes_in_level, constants_in_boxes, constants_in_levels};

use larch_base::{Memory, Sequence};
use larch_derive::OpenBox;
use larch_prove_settling::from_prove_draft::Draft;
use larch_prove_settling::from_prove_levels::Level;
use larch_term::{Operator, Operators};
use std::alloc::Global;
use std::rc::Rc;

// The constants of all boxes that the levels of a proof keep open, the outermost box first.
pub(crate) fn constants_of_levels(alloc: Global, draft: &Draft) -> Result<Operators, Memory>
    ensures { IfOk result (λ fs. fs ≡ constants_in_levels (draft.now.current ∷ below_in draft.now)) }
{
    let mut found = Sequence::new(alloc);
    add_levels(&mut found, &draft.below)?;
    add_level(&mut found, &draft.current)?;
    Ok(found)
}

// Adds the constants of the boxes that levels keep open, the lowest level being the first.
fn add_levels(found: &mut Operators, levels: &[Rc<Level>]) -> Result<(), Memory>
    ensures { OnOk result (found.new
        ≡ found.old ++ constants_in_levels (reverse (map (λ level. level.value) levels.now))) }
{
    for level in levels {
        add_level(found, level)?;
    }
    Ok(())
}

// Adds the constants of the boxes that a level keeps open.
fn add_level(found: &mut Operators, level: &Level) -> Result<(), Memory>
    ensures { OnOk result (found.new ≡ found.old ++ constants_in_boxes (boxes_in_level level.now)) }
{
    add_box(found, level.entrance.as_ref())?;
    add_boxes(found, level.extras.as_slice())?;
    let Some(running) = &level.running else {
        return Ok(());
    };
    add_box(found, running.shared.as_ref())
}

// Adds the constants of boxes.
fn add_boxes(found: &mut Operators, boxes: &[OpenBox]) -> Result<(), Memory>
    ensures { OnOk result (found.new ≡ found.old ++ constants_in_boxes boxes.now) }
{
    for open_box in boxes {
        add_box(found, Some(open_box))?;
    }
    Ok(())
}

// Adds the constants of a box, if there is one.
fn add_box(found: &mut Operators, open_box: Option<&OpenBox>) -> Result<(), Memory>
    ensures { OnOk result (found.new
        ≡ found.old ++ constants_in_boxes (box_list (option_copied open_box.entry))) }
{
    let Some(open_box) = open_box else {
        return Ok(());
    };
    add_operators(found, open_box.constants.as_slice())
}

// Adds operators.
fn add_operators(found: &mut Operators, further: &[Operator]) -> Result<(), Memory>
    ensures { OnOk result (found.new ≡ found.old ++ further.now) }
{
    for operator in further {
        let copied = operator.copy()?;
        found.push(copied)?;
    }
    Ok(())
}
