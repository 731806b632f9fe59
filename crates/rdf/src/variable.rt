// Variables and sets of them.
ghost use Rattle.std.specs.Prelude.{◌≡◌, false};
ghost use Rattle.rdf.specs.Variables.{HasAlso, in_range, in_set};

// A variable by its number; a query may use 0 to 15.
#[derive(Clone, Copy, PartialEq, Eq, Debug)]
pub struct Variable(pub u8);

impl Variable {
    // Whether rows have a place for the variable.
    pub fn is_in_range(self) -> bool
        ensures { result ≡ in_range self }
    {
        self.0 <= 15
    }
}

// A set of variables that rows have places for: bit v is set where variable v is a member.
#[derive(Clone, Copy, PartialEq, Eq, Debug)]
pub struct VariableSet(u16);

impl VariableSet {
    // The set with no member.
    pub fn none() -> VariableSet
        ensures { (w : Variable) → in_set result w ≡ false }
    {
        VariableSet(0)
    }

    // The set with one more member; a variable above 15 leaves it as it is.
    pub fn with(self, variable: Variable) -> VariableSet
        ensures { HasAlso result variable self }
    {
        if variable.is_in_range() {
            VariableSet(self.0 | 1 << variable.0)
        } else {
            self
        }
    }

    pub fn contains(self, variable: Variable) -> bool
        ensures { result ≡ in_set self variable }
    {
        variable.is_in_range() && (self.0 >> variable.0) % 2 == 1
    }
}
