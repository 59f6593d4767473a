//! The rules by which a file is opened and played.

ghost use Rattle.std.specs.Prelude.{◌≡◌};

/// Which rules apply.
#[derive(Clone, Copy, Debug, PartialEq, Eq)]
pub enum Profile {
    /// The default. The plane counts the units of a file's frame.
    Core,
    /// For surfaces that are larger than the frame. The plane counts parts of a unit of the frame.
    Print,
}

/// What the print profile accepts only if it is allowed.
#[derive(Clone, Copy, Debug, PartialEq, Eq)]
pub struct Allowances {
    /// The deletion of an object that is selected: what is selected keeps its values.
    pub held_deletion: bool,
    /// An EMF file that contains EMF+ and whose own records draw nothing.
    pub emf_plus: bool,
}

/// The rules under which a file is opened and played: a profile, and what is allowed under it. The core profile ignores
/// what is allowed.
#[derive(Clone, Copy, Debug, PartialEq, Eq)]
pub struct Rules {
    pub profile: Profile,
    pub allowed: Allowances,
}

impl Allowances {
    ghost use Rattle.draw_ops.specs.RuleSets.{allowance_bits, allowances_of};

    /// Nothing is allowed.
    pub const NONE: Allowances = Allowances {
        held_deletion: false,
        emf_plus: false,
    };

    /// What a number allows, as it stands in a certificate: bit 0 is for `held_deletion`, bit 1 for `emf_plus`. `None` if
    /// any other bit is set.
    pub fn from_bits(bits: u32) -> Option<Allowances>
        ensures { result ≡ allowances_of bits }
    {
        if bits >= 4 {
            return None;
        }
        Some(Allowances {
            held_deletion: bits % 2 == 1,
            emf_plus: bits / 2 % 2 == 1,
        })
    }

    /// What is allowed, as a number from 0 to 3.
    pub fn bits(self) -> u32
        ensures { result ≡ allowance_bits self }
    {
        u32::from(self.held_deletion) + 2 * u32::from(self.emf_plus)
    }
}

impl Rules {
    ghost use Rattle.draw_ops.specs.RuleSets.{allows_emf_plus, allows_held_deletion, in_force, is_print, print_rules};

    /// The core profile.
    pub const CORE: Rules = Rules {
        profile: Profile::Core,
        allowed: Allowances::NONE,
    };

    /// The print profile, with some of this allowed.
    pub fn print(allowed: Allowances) -> Rules
        ensures { result ≡ print_rules allowed }
    {
        Rules {
            profile: Profile::Print,
            allowed,
        }
    }

    /// Whether they are of the print profile, whose plane counts parts of a unit of the frame.
    pub fn is_print(self) -> bool
        ensures { result ≡ is_print self }
    {
        self.profile == Profile::Print
    }

    /// The rules in force: under the core profile nothing is allowed.
    pub fn in_force(self) -> Rules
        ensures { result ≡ in_force self }
    {
        if self.is_print() { self } else { Rules::CORE }
    }

    /// Whether a selected object may be deleted.
    pub fn allows_held_deletion(self) -> bool
        ensures { result ≡ allows_held_deletion self }
    {
        self.is_print() && self.allowed.held_deletion
    }

    /// Whether an EMF file that contains EMF+ may draw nothing by its own records.
    pub fn allows_emf_plus(self) -> bool
        ensures { result ≡ allows_emf_plus self }
    {
        !self.is_print() || self.allowed.emf_plus
    }
}
