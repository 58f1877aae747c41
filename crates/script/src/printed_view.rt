ghost use Rattle.std.specs.Prelude.{◌≡◌, ◌++◌, ◌∷◌, ◌↔◌, OnOk, IsTrue};
ghost use Rattle.std.specs.Fmt.{decimal};
ghost use Rattle.std.specs.List.{flat_map};
ghost use Rattle.std.specs.String.{string_bytes};
ghost use Rattle.script.specs.Text as texts;

use crate::text::push_max_root;
use adb_model::{Slot, View};
use std::alloc::{AllocError, Global};
use std::marker::Model;
use text_fields::push_number;

fn push_more_slots(text: &mut String, slots: &[Slot]) -> Result<(), AllocError>
    ensures { OnOk result (string_bytes text.new ≡ string_bytes text.old ++ flat_map (λ n. 44 ∷ decimal n) slots.now) }
{
    for slot in slots {
        text.push_str(",")?;
        push_number(text, *slot)?;
    }
    Ok(())
}

#[tactic(auto, unfolding(crate::specs::Text::slots_text))]
fn push_slots(text: &mut String, slots: &[Slot]) -> Result<(), AllocError>
    ensures { OnOk result (string_bytes text.new ≡ string_bytes text.old ++ texts.slots_text slots.now) }
{
    match slots {
        [] => text.push_str("-"),
        [first, rest @ ..] => {
            push_number(text, *first)?;
            push_more_slots(text, rest)
        }
    }
}

#[tactic(auto, unfolding(crate::specs::Text::view_text))]
fn push_view(text: &mut String, view: &View) -> Result<(), AllocError>
    ensures { OnOk result (string_bytes text.new ≡ string_bytes text.old ++ texts.view_text view.now) }
{
    push_slots(text, view.ancestors())?;
    text.push_str("@")?;
    push_max_root(text, view.max_root())
}

fn are_equal(one: &View, other: &View) -> bool
    ensures { IsTrue result ↔ (one.now ≡ other.now) }
{
    one.max_root() == other.max_root() && one.ancestors() == other.ancestors()
}

/// The view that was last printed, with its text, so that an equal view isn't printed again.
#[derive(Drop)]
pub struct PrintedView {
    view: Option<View>,
    text: String,
}

impl Model for PrintedView {
    ghost use Rattle.std.specs.Prelude.{◌≡◌, IfSome};
    ghost use Rattle.std.specs.String.{string_bytes};
    ghost use Rattle.script.specs.Text as texts;

    ghost Value = { Unit {0} };

    ghost view = { λ _. tt };

    ghost invariant = { λ printed. IfSome printed.view (λ view. string_bytes printed.text ≡ texts.view_text view) };
}

impl PrintedView {
    /// No view was printed yet.
    pub fn new(alloc: Global) -> PrintedView {
        PrintedView {
            view: None,
            text: String::new(alloc),
        }
    }

    /// Puts the text of a view at the end of a text.
    pub fn push(&mut self, alloc: Global, text: &mut String, view: &View) -> Result<(), AllocError>
        ensures { OnOk result (string_bytes text.new ≡ string_bytes text.old ++ texts.view_text view.now) }
    {
        let is_printed = match &self.view {
            Some(last) => are_equal(last, view),
            None => false,
        };
        if !is_printed {
            self.view = None;
            self.text.clear();
            push_view(&mut self.text, view)?;
            self.view = Some(view.try_copy(alloc)?);
        }
        text.push_str(&self.text)
    }
}
