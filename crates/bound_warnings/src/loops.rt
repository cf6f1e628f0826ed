//! Warnings about loops.

ghost use Rattle.std.specs.Prelude.{◌≡◌, length};
ghost use Rattle.affine_form.specs.Form.{variables};

use crate::spans::Span;
use affine_form::{Form, Memory, Name};
use affine_program::{Item, Program};
use int_sets::prove;
use plain_pages::{Page, position_of};
use program_pages::Places;
use std::alloc::Global;

/// The program that warnings are about: the name of its file, its text, and where its loops stand in it; and whether guards are
/// around the loops that are looked at, so that nothing is said of whether they may be empty.
#[derive(Clone, Copy)]
pub(crate) struct Scene<'a> {
    pub(crate) alloc: Global,
    pub(crate) file: &'a str,
    pub(crate) text: &'a [u8],
    pub(crate) program: &'a Program,
    pub(crate) places: &'a Places,
    pub(crate) guarded: bool,
}

/// The least number of values that a loop may have, less than 0 too, by the bounds of the loops round it: a form of the parameters.
fn least_span(
    alloc: Global,
    lower: &Form,
    upper: &Form,
    around: &[(Form, Form)],
    params: usize,
) -> Result<Span, Memory> {
    let variables = params.saturating_add(around.len());
    let mut span = Span::of(alloc, lower, upper, variables)?;
    for turn in 0..around.len() {
        let place = around.len() - 1 - turn;
        if let Some((low, high)) = around.get(place) {
            span.put_least(params.saturating_add(place), low, high);
        }
    }
    Ok(span)
}

/// The bounds of loops, and those of one more.
fn with_bounds(
    alloc: Global,
    around: &[(Form, Form)],
    lower: &Form,
    upper: &Form,
) -> Result<Vec<(Form, Form)>, Memory> {
    let mut all = Vec::new(alloc);
    for (low, high) in around {
        all.push((low.try_clone(alloc)?, high.try_clone(alloc)?))?;
    }
    all.push((lower.try_clone(alloc)?, upper.try_clone(alloc)?))?;
    Ok(all)
}

/// By how much a loop's bounds move with a loop round it, where it is the same for both and more than one: the width of a tile.
fn tile_width(params: usize, depth: usize, lower: &Form, upper: &Form) -> Option<i128> {
    for place in 0..depth {
        let variable = params.saturating_add(place);
        let width = lower.coefficient(variable);
        if width > 1 && width == upper.coefficient(variable) {
            return Some(width);
        }
    }
    None
}

impl Scene<'_> {
    /// Writes the beginning of a warning about the loop of this number and this name.
    fn begin(self, page: &mut Page, number: usize, name: &Name) -> Result<(), Memory> {
        page.text(self.file)?;
        if let Some(place) = self.places.loops.as_slice().get(number) {
            let position = position_of(self.text, *place);
            let (line, column) = (position.line, position.column);
            page.text(format!(in self.alloc; ":{line}:{column}")?.as_str())?;
        }
        page.text(": warning: the loop `")?;
        page.write_bytes(name.bytes())?;
        page.text("` ")?;
        Ok(())
    }

    /// Writes the line that would assume a form of the parameters, beside what is assumed.
    fn advise(self, page: &mut Page, goal: &Form) -> Result<(), Memory>
        requires { variables goal.now ≡ length self.program.now.params }
    {
        let names = self.program.params();
        page.text(
            "help: above `#pragma scop`, in place of other such lines: #pragma iolb assume ",
        )?;
        for row in self.program.assumed().rows() {
            let text = row.text(self.alloc, names)?;
            page.write_bytes(text.as_slice())?;
            page.text(" >= 0 && ")?;
        }
        let text = goal.text(self.alloc, names)?;
        page.write_bytes(text.as_slice())?;
        page.line(" >= 0")?;
        Ok(())
    }

    /// Warns of the loop of this number where nothing assumed says that this form of the parameters, the least number of its
    /// values, is at least 0.
    fn warn_empty(
        self,
        page: &mut Page,
        number: usize,
        name: &Name,
        goal: &Form,
    ) -> Result<(), Memory>
        requires { variables goal.now ≡ length self.program.now.params }
    {
        if prove(self.alloc, self.program.assumed(), goal)?.is_some() {
            return Ok(());
        }
        self.begin(page, number, name)?;
        page.line(
            "may have an upper bound more than one below its lower, by the assumptions; then its values can't be counted",
        )?;
        self.advise(page, goal)
    }

    /// Warns of a loop that looks like a tile.
    fn warn_tile(
        self,
        page: &mut Page,
        number: usize,
        name: &Name,
        width: i128,
    ) -> Result<(), Memory> {
        self.begin(page, number, name)?;
        page.line(format!(in self.alloc; "looks like a tile of width {width}")?.as_str())?;
        page.line(
            "help: write the loops as they are before they are tiled: a bound holds of every order of the instances",
        )?;
        Ok(())
    }

    /// Warns of a loop inside others.
    fn warn_loop(
        self,
        page: &mut Page,
        number: usize,
        name: &Name,
        bounds: (&Form, &Form),
        around: &[(Form, Form)],
    ) -> Result<(), Memory> {
        let (lower, upper) = bounds;
        let params = self.program.params().len();
        if let Some(width) = tile_width(params, around.len(), lower, upper) {
            return self.warn_tile(page, number, name, width);
        }
        if self.guarded {
            return Ok(());
        }
        let span = least_span(self.alloc, lower, upper, around, params)?;
        match span.form(self.alloc, params)? {
            Some(goal) => self.warn_empty(page, number, name, &goal),
            None => Ok(()),
        }
    }
}

/// Whether items in a row have a statement.
#[cycle(look)]
fn have_statement(items: &[Item]) -> bool {
    for item in items {
        if has_statement(item) {
            return true;
        }
    }
    false
}

/// Whether an item has a statement.
#[cycle(look)]
fn has_statement(item: &Item) -> bool {
    match item {
        Item::Assign(_) => true,
        Item::Loop { body, .. } | Item::Guard { body, .. } => have_statement(body),
    }
}

/// Writes the warnings about the loops of items in a row inside others, where so many loops were seen.
#[cycle(walk)]
pub(crate) fn warn_items(
    scene: Scene<'_>,
    page: &mut Page,
    seen: &mut usize,
    around: &[(Form, Form)],
    items: &[Item],
) -> Result<(), Memory> {
    for item in items {
        warn_item(scene, page, seen, around, item)?;
    }
    Ok(())
}

/// Writes the warnings about the loops of an item.
#[cycle(walk)]
fn warn_item(
    scene: Scene<'_>,
    page: &mut Page,
    seen: &mut usize,
    around: &[(Form, Form)],
    item: &Item,
) -> Result<(), Memory> {
    match item {
        Item::Assign(_) => Ok(()),
        Item::Loop {
            name,
            lower,
            upper,
            body,
            ..
        } => {
            if have_statement(body) {
                scene.warn_loop(page, *seen, name, (lower, upper), around)?;
            }
            *seen = seen.saturating_add(1);
            let inner = with_bounds(scene.alloc, around, lower, upper)?;
            warn_items(scene, page, seen, inner.as_slice(), body)
        }
        Item::Guard { body, .. } => {
            let guarded = Scene {
                guarded: true,
                ..scene
            };
            warn_items(guarded, page, seen, around, body)
        }
    }
}
