//! The rules that a command line asks for.

ghost use Rattle.std.specs.Prelude.{◌≡◌, IfErr, IfOk, IsOk, codes, option_map, true};
ghost use Rattle.std.specs.List.{list_all};
ghost use Rattle.clap.specs.Words.{all_of, first_of, found_of, rows_of};
ghost use Rattle.command_lines.specs.BatchWords.{names_in};
ghost use Rattle.command_lines.specs.RuleWords.{AreRightRules, GivesRules, allowances_asked, asks_print, has_allow, has_allowances, has_profile, is_allowance, is_allowed, is_among, rules_asked};
ghost use Rattle.command_lines.specs.WrongRules.{AreWrongBy};

use clap::ArgMatches;
use draw_ops::{Allowances, Profile, Rules};

/// The profiles, by their names.
const CORE: &str = "core";

const PRINT: &str = "print";

/// What the print profile may allow, by their names.
const HELD_DELETION: &str = "held-deletion";

const EMF_PLUS: &str = "emf-plus";

/// What is wrong with the arguments for the rules.
#[derive(Clone, Copy, Debug, PartialEq, Eq)]
pub(crate) enum WrongRules {
    /// No profile has this name.
    Profile,
    /// Nothing of this name may be allowed.
    Allowance,
    /// Something is allowed under the core profile.
    AllowedUnderCore,
}

impl WrongRules {
    /// The text to show to the user.
    pub(crate) fn text(self) -> &'static str {
        match self {
            WrongRules::Profile => "--profile needs core or print",
            WrongRules::Allowance => "--allow needs held-deletion or emf-plus",
            WrongRules::AllowedUnderCore => "--allow needs --profile print",
        }
    }
}

/// The rules that are asked for, or what is wrong with the arguments for them.
pub(crate) fn rules_of(given: &ArgMatches<'_>) -> Result<Rules, WrongRules>
    ensures given { IfOk result (GivesRules (rows_of (found_of given.now))) }
    ensures taken { AreRightRules (rows_of (found_of given.now)) → IsOk result }
    ensures wrong { IfErr result (AreWrongBy (rows_of (found_of given.now))) }
{
    if !has_profile(given) {
        return Err(WrongRules::Profile);
    }
    if !has_allowances(given) {
        return Err(WrongRules::Allowance);
    }
    if has_allow(given) && !asks_print(given) {
        return Err(WrongRules::AllowedUnderCore);
    }
    Ok(rules_asked(given))
}

/// The rules that are asked for, if the arguments for them are right.
fn rules_asked(given: &ArgMatches<'_>) -> Rules
    ensures { result ≡ rules_asked (rows_of (found_of given.now)) }
{
    if asks_print(given) {
        Rules {
            profile: Profile::Print,
            allowed: allowances_asked(given),
        }
    } else {
        Rules::CORE
    }
}

/// What is allowed by name.
fn allowances_asked(given: &ArgMatches<'_>) -> Allowances
    ensures { result ≡ allowances_asked (rows_of (found_of given.now)) }
{
    Allowances {
        held_deletion: is_allowed(given, HELD_DELETION),
        emf_plus: is_allowed(given, EMF_PLUS),
    }
}

/// Whether the profile is a profile's name, or not given.
fn has_profile(given: &ArgMatches<'_>) -> bool
    ensures { result ≡ has_profile (rows_of (found_of given.now)) }
{
    match profile_name(given) {
        Some(name) => name == CORE || name == PRINT,
        None => true,
    }
}

/// Whether the print profile is asked for.
fn asks_print(given: &ArgMatches<'_>) -> bool
    ensures { result ≡ asks_print (rows_of (found_of given.now)) }
{
    match profile_name(given) {
        Some(name) => name == PRINT,
        None => false,
    }
}

/// The name of the profile, if it is given.
fn profile_name<'a>(given: &ArgMatches<'a>) -> Option<&'a str>
    ensures { option_map (λ name. name.now) result ≡ first_of (codes "PROFILE") (rows_of (found_of given.now)) }
{
    given.get_str("PROFILE")
}

/// Whether all that is allowed may be allowed.
fn has_allowances(given: &ArgMatches<'_>) -> bool
    ensures { result ≡ has_allowances (rows_of (found_of given.now)) }
{
    match allowed_names(given) {
        Some(names) => are_allowances(names),
        None => true,
    }
}

/// Whether something of this name is allowed.
fn is_allowed(given: &ArgMatches<'_>, name: &str) -> bool
    ensures { result ≡ is_allowed (rows_of (found_of given.now)) name.now }
{
    match allowed_names(given) {
        Some(names) => is_among(name, names),
        None => false,
    }
}

/// Whether something is allowed.
fn has_allow(given: &ArgMatches<'_>) -> bool
    ensures { result ≡ has_allow (rows_of (found_of given.now)) }
{
    allowed_names(given).is_some()
}

/// The names of what is allowed, if any are given.
fn allowed_names<'m, 'a>(given: &'m ArgMatches<'a>) -> Option<&'m [&'a str]>
    ensures { option_map (λ names. names_in names.now) result ≡ all_of (codes "NAME") (rows_of (found_of given.now)) }
{
    given.get_strs("NAME")
}

/// Whether each of the names is that of something that may be allowed.
fn are_allowances(names: &[&str]) -> bool
    ensures { result ≡ list_all is_allowance (names_in names.now) }
{
    for name in names {
        if !is_allowance(name) {
            return false;
        }
    }
    true
}

/// Whether something of this name may be allowed.
fn is_allowance(name: &str) -> bool
    ensures { result ≡ is_allowance name.now }
{
    name == HELD_DELETION || name == EMF_PLUS
}

/// Whether the name is among these names.
fn is_among(name: &str, names: &[&str]) -> bool
    ensures { result ≡ is_among name.now (names_in names.now) }
{
    names.contains(&name)
}
