//! One value for each of the seven units in use, such as a lane or a worker's thread.
//!
//! Callers rely on `PerUnit::get`, which returns the value of a unit, and on `zip` and `map`, which keep the values of
//! one unit together.
ghost use Rattle.std.specs.Prelude.{◌≡◌, ◌∷◌, [], IfSome, MatchOption, Some, None, is_some, map};
ghost use Rattle.instructions.specs.declared.instr.Unit.TheVariants.{Branch, Boolean, Shift, LongAdd, Divide};
ghost use Rattle.instructions.specs.declared.instr.Unit.TheVariants.{Increment1, Increment2};
ghost use Rattle.instructions.specs.PerUnit.{in_order, of_unit, is_complete, paired, Each};

use crate::instr::Unit;

/// One value for each of the seven units in use.
#[derive(Default, Drop)]
pub struct PerUnit<T> {
    pub branch: T,
    pub boolean: T,
    pub shift: T,
    pub long_add: T,
    pub divide: T,
    pub increment1: T,
    pub increment2: T,
}

impl PerUnit<Unit> {
    /// The seven units themselves.
    pub fn units() -> PerUnit<Unit>
        ensures { in_order result
            ≡ Branch ∷ Boolean ∷ Shift ∷ LongAdd ∷ Divide ∷ Increment1 ∷ Increment2 ∷ [] }
    {
        PerUnit {
            branch: Unit::Branch,
            boolean: Unit::Boolean,
            shift: Unit::Shift,
            long_add: Unit::LongAdd,
            divide: Unit::Divide,
            increment1: Unit::Increment1,
            increment2: Unit::Increment2,
        }
    }
}

impl<T> PerUnit<T> {
    /// Takes the values from an array in the order of the units' numbers. No clause promises that order: the prover has
    /// no facts about values taken out of an array if they can't simply be dropped. A wrong order would show in a run:
    /// a worker for another unit claims nothing.
    pub fn from_array(all: [T; 7]) -> PerUnit<T> {
        let [
            branch,
            boolean,
            shift,
            long_add,
            divide,
            increment1,
            increment2,
        ] = all;
        PerUnit {
            branch,
            boolean,
            shift,
            long_add,
            divide,
            increment1,
            increment2,
        }
    }

    /// The values as an array, in the order of the units' numbers.
    pub fn into_array(self) -> [T; 7]
        ensures { result ≡ in_order self }
    {
        let PerUnit {
            branch,
            boolean,
            shift,
            long_add,
            divide,
            increment1,
            increment2,
        } = self;
        [
            branch, boolean, shift, long_add, divide, increment1, increment2,
        ]
    }

    /// The value of a unit, or `None` if no instruction uses that unit.
    pub fn get(&self, unit: Unit) -> Option<&T>
        ensures { MatchOption result (of_unit unit self.now ≡ None) (λ found. of_unit unit self.now ≡ Some found.now) }
    {
        match unit {
            Unit::Branch => Some(&self.branch),
            Unit::Boolean => Some(&self.boolean),
            Unit::Shift => Some(&self.shift),
            Unit::LongAdd => Some(&self.long_add),
            Unit::Divide => Some(&self.divide),
            Unit::Increment1 => Some(&self.increment1),
            Unit::Increment2 => Some(&self.increment2),
            Unit::Add | Unit::Multiply1 | Unit::Multiply2 => None,
        }
    }

    /// The value of a unit, to change. `None` if no instruction uses that unit.
    pub fn get_mut(&mut self, unit: Unit) -> Option<&mut T>
        ensures { MatchOption result (of_unit unit self.old ≡ None) (λ found. of_unit unit self.old ≡ Some found.now) }
    {
        match unit {
            Unit::Branch => Some(&mut self.branch),
            Unit::Boolean => Some(&mut self.boolean),
            Unit::Shift => Some(&mut self.shift),
            Unit::LongAdd => Some(&mut self.long_add),
            Unit::Divide => Some(&mut self.divide),
            Unit::Increment1 => Some(&mut self.increment1),
            Unit::Increment2 => Some(&mut self.increment2),
            Unit::Add | Unit::Multiply1 | Unit::Multiply2 => None,
        }
    }

    /// References to the values.
    pub fn each(&self) -> PerUnit<&T>
        ensures { Each (λ t found. found.now ≡ t) self.now result }
    {
        PerUnit {
            branch: &self.branch,
            boolean: &self.boolean,
            shift: &self.shift,
            long_add: &self.long_add,
            divide: &self.divide,
            increment1: &self.increment1,
            increment2: &self.increment2,
        }
    }

    /// References to the values as an array, in the order of the units' numbers.
    pub fn as_array(&self) -> [&T; 7]
        ensures { map (λ found. found.now) result ≡ in_order self.now }
    {
        [
            &self.branch,
            &self.boolean,
            &self.shift,
            &self.long_add,
            &self.divide,
            &self.increment1,
            &self.increment2,
        ]
    }

    /// References to the values, to change them.
    pub fn each_mut(&mut self) -> PerUnit<&mut T>
        ensures { Each (λ t found. found.now ≡ t) self.old result }
    {
        PerUnit {
            branch: &mut self.branch,
            boolean: &mut self.boolean,
            shift: &mut self.shift,
            long_add: &mut self.long_add,
            divide: &mut self.divide,
            increment1: &mut self.increment1,
            increment2: &mut self.increment2,
        }
    }

    /// Pairs the value of each unit with the other's value of that unit.
    pub fn zip<U>(self, other: PerUnit<U>) -> PerUnit<(T, U)>
        ensures { result ≡ paired self other }
    {
        PerUnit {
            branch: (self.branch, other.branch),
            boolean: (self.boolean, other.boolean),
            shift: (self.shift, other.shift),
            long_add: (self.long_add, other.long_add),
            divide: (self.divide, other.divide),
            increment1: (self.increment1, other.increment1),
            increment2: (self.increment2, other.increment2),
        }
    }

    /// Combines the two values of each unit with `make`, one unit after another in the order of the units' numbers.
    pub fn zip_with<U, V, F: Fn(T, U) -> V>(self, other: PerUnit<U>, make: F) -> PerUnit<V>
        requires { F.IsAlwaysCallable make }
        ensures { Each (λ both v. F.post make both.0 both.1 v) (paired self other) result }
    {
        PerUnit {
            branch: make(self.branch, other.branch),
            boolean: make(self.boolean, other.boolean),
            shift: make(self.shift, other.shift),
            long_add: make(self.long_add, other.long_add),
            divide: make(self.divide, other.divide),
            increment1: make(self.increment1, other.increment1),
            increment2: make(self.increment2, other.increment2),
        }
    }

    /// Applies `make` to the value of each unit, one unit after another in the order of the units' numbers.
    pub fn map<U, F: Fn(T) -> U>(self, make: F) -> PerUnit<U>
        requires { F.IsAlwaysCallable make }
        ensures { Each (λ t u. F.post make t u) self result }
    {
        PerUnit {
            branch: make(self.branch),
            boolean: make(self.boolean),
            shift: make(self.shift),
            long_add: make(self.long_add),
            divide: make(self.divide),
            increment1: make(self.increment1),
            increment2: make(self.increment2),
        }
    }
}

impl<T, U> PerUnit<(T, U)> {
    /// Splits the pairs into the first values and the second values.
    pub fn unzip(self) -> (PerUnit<T>, PerUnit<U>)
        ensures { self ≡ paired result.0 result.1 }
    {
        let PerUnit {
            branch,
            boolean,
            shift,
            long_add,
            divide,
            increment1,
            increment2,
        } = self;
        let first = PerUnit {
            branch: branch.0,
            boolean: boolean.0,
            shift: shift.0,
            long_add: long_add.0,
            divide: divide.0,
            increment1: increment1.0,
            increment2: increment2.0,
        };
        let second = PerUnit {
            branch: branch.1,
            boolean: boolean.1,
            shift: shift.1,
            long_add: long_add.1,
            divide: divide.1,
            increment1: increment1.1,
            increment2: increment2.1,
        };
        (first, second)
    }
}

impl<T: Drop> PerUnit<Option<T>> {
    /// The values, if none is missing.
    pub fn complete(self) -> Option<PerUnit<T>>
        ensures complete { is_some result ≡ is_complete self }
        ensures all { IfSome result (λ all. Each (λ one t. one ≡ Some t) self all) }
    {
        // One test of all seven: an early return for each would have to drop the values before it, in seven ways.
        let first = self
            .branch
            .zip(self.boolean)
            .zip(self.shift.zip(self.long_add));
        let last = self.divide.zip(self.increment1.zip(self.increment2));
        let (((branch, boolean), (shift, long_add)), (divide, (increment1, increment2))) =
            first.zip(last)?;
        Some(PerUnit {
            branch,
            boolean,
            shift,
            long_add,
            divide,
            increment1,
            increment2,
        })
    }
}
