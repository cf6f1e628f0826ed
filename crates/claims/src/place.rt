//! Places in a certificate's text.

ghost use Rattle.std.specs.Prelude.{◌≡◌, [], ◌∷◌, ◌++◌, IfOk, OnOk};

use affine_form::Memory;
use std::alloc::Global;
use std::marker::Model;

/// A key of an object, by its text.
#[derive(Debug, Drop)]
pub struct ObjectKey(pub &'static str);

impl Model for ObjectKey {
    ghost use Rattle.std.specs.Prelude.{ℕ, List};

    ghost Value = { List ℕ };

    ghost view = { λ key. key.0.now };
}

/// A step from a JSON value into a part of it.
#[derive(Debug, Drop)]
pub enum Step {
    /// Into an object, by its key.
    Key(ObjectKey),
    /// Into an array, by its index.
    Index(u64),
}

impl ObjectKey {
    /// The key once more.
    pub fn same(&self) -> ObjectKey
        ensures { result ≡ self.now }
    {
        ObjectKey(self.0)
    }
}

impl Step {
    /// The step once more.
    pub fn same(&self) -> Step
        ensures { result ≡ self.now }
    {
        match self {
            Step::Key(key) => Step::Key(key.same()),
            Step::Index(index) => Step::Index(*index),
        }
    }
}

/// A place in a JSON value: the steps from the whole value, as a JSON Pointer (RFC 6901) has them.
#[derive(Debug, Drop)]
pub struct Place {
    steps: Vec<Step>,
}

impl Model for Place {
    ghost use Rattle.std.specs.Prelude.{List};
    ghost use Rattle.claims.specs.declared.place.Step.{Step};

    ghost Value = { List Step };

    ghost view = { λ place. place.steps.items };
}

impl Place {
    /// The place to which these steps lead.
    pub fn new(steps: Vec<Step>) -> Place
        ensures { result ≡ steps.items }
    {
        Place { steps }
    }

    /// The steps from the whole value.
    pub fn steps(&self) -> &[Step]
        ensures { result.now ≡ self.now }
    {
        self.steps.as_slice()
    }

    /// A copy of the place.
    pub fn try_clone(&self, alloc: Global) -> Result<Place, Memory>
        ensures { IfOk result (λ place. place ≡ self.now) }
    {
        let mut steps = Vec::new(alloc);
        push_steps(&mut steps, self.steps())?;
        Ok(Place { steps })
    }

    /// The place one step further in.
    pub fn within(&self, alloc: Global, step: Step) -> Result<Place, Memory>
        ensures { IfOk result (λ inner. inner ≡ self.now ++ step ∷ []) }
    {
        let mut steps = Vec::new(alloc);
        push_steps(&mut steps, self.steps())?;
        steps.push(step)?;
        Ok(Place { steps })
    }

    /// The same place, seen from the value that has this one behind a step.
    pub fn behind(&self, alloc: Global, step: Step) -> Result<Place, Memory>
        ensures { IfOk result (λ longer. longer ≡ step ∷ self.now) }
    {
        let mut steps = Vec::new(alloc);
        steps.push(step)?;
        push_steps(&mut steps, self.steps())?;
        Ok(Place { steps })
    }
}

/// These steps, written at the end.
fn push_steps(steps: &mut Vec<Step>, more: &[Step]) -> Result<(), Memory>
    ensures { OnOk result (steps.new.items ≡ steps.old.items ++ more.now) }
{
    for step in more {
        steps.push(step.same())?;
    }
    Ok(())
}
