// What is said of a story, in sentences.
ghost use Rattle.std.specs.Prelude.{◌≡◌, if◌then◌else◌, codes, Some};
ghost use Rattle.std.specs.Fmt.{DisplaysOnOk};
ghost use Rattle.model.specs.View.{at};
ghost use Rattle.stories.specs.Words.{clause_text, is_open, is_struck, open_text, outcome_text, rule_text, still_open_text, story_text, struck_below, struck_line, struck_text, told_text};

use crate::flags::{Flags, yes_or_no};
use crate::story::Story;
use clauses::literal::Literal;
use model::boxes::FlagBox;
use model::fact::Fact;
use narrowing::Verdict;
use std::fmt;
use table::relation::Relation;

// Said before the first fact, and where there is nothing to tell it to.
pub const NOTHING_TOLD: &str = "Nothing is told yet.";

pub const NOTHING_FITS: &str = "The rules contradict one another: nothing fits them.";

// Programs print what these two answer, since a contract fixes the words of a function and not of a constant.
pub fn nothing_told() -> &'static str
    ensures { result.now ≡ codes "Nothing is told yet." }
{
    NOTHING_TOLD
}

pub fn nothing_fits() -> &'static str
    ensures { result.now ≡ codes "The rules contradict one another: nothing fits them." }
{
    NOTHING_FITS
}

#[derive(Clone, Copy)]
pub struct RuleInWords<'a> {
    pub flags: Flags<'a>,
    pub rule: Relation<usize>,
}

impl fmt::Display for RuleInWords<'_> {
    ghost output = { λ said. Some (rule_text said.flags.names.now said.rule) };

    fn fmt<W: fmt::Write>(&self, f: &mut fmt::Formatter<W>) -> fmt::Result {
        let flags = self.flags;
        match self.rule {
            Relation::Equal(x, y) => write!(f, "  Rule: {} = {}.", flags.name(x), flags.name(y)),
            Relation::Not(x, y) => write!(f, "  Rule: not {} = {}.", flags.name(x), flags.name(y)),
            Relation::And(x, y, z) => write!(
                f,
                "  Rule: {} and {} = {}.",
                flags.name(x),
                flags.name(y),
                flags.name(z)
            ),
            Relation::Or(x, y, z) => write!(
                f,
                "  Rule: {} or {} = {}.",
                flags.name(x),
                flags.name(y),
                flags.name(z)
            ),
        }
    }
}

#[derive(Clone, Copy)]
pub struct ClauseInWords<'a> {
    pub flags: Flags<'a>,
    pub clause: &'a [Literal<usize>],
}

impl fmt::Display for ClauseInWords<'_> {
    ghost output = { λ said. Some (clause_text said.flags.names.now said.clause.now) };

    fn fmt<W: fmt::Write>(&self, f: &mut fmt::Formatter<W>) -> fmt::Result {
        f.write_str("  Rule:")?;
        let mut separator = " ";
        for literal in self.clause {
            let name = self.flags.name(literal.flag);
            let value = yes_or_no(literal.positive);
            write!(f, "{separator}{name} is {value}")?;
            separator = ", or ";
        }
        f.write_str(".")
    }
}

// The title and the rules, each on a line of its own.
impl fmt::Display for Story<'_> {
    ghost output = { λ story. Some (story_text story) };

    fn fmt<W: fmt::Write>(&self, f: &mut fmt::Formatter<W>) -> fmt::Result {
        let flags = self.flags;
        let title = self.title;
        writeln!(f, "{title}")?;
        for clause in self.clauses {
            writeln!(f, "{}", ClauseInWords { flags, clause })?;
        }
        for rule in self.rules {
            writeln!(f, "{}", RuleInWords { flags, rule: *rule })?;
        }
        Ok(())
    }
}

#[derive(Clone, Copy)]
pub struct FactTold<'a> {
    pub flags: Flags<'a>,
    pub fact: Fact,
}

impl fmt::Display for FactTold<'_> {
    ghost output = { λ said. Some (told_text said.flags.names.now said.fact) };

    fn fmt<W: fmt::Write>(&self, f: &mut fmt::Formatter<W>) -> fmt::Result {
        let name = self.flags.name(usize::from(self.fact.flag));
        let value = yes_or_no(self.fact.value);
        write!(f, "Told: {name} is {value}.")
    }
}

// A value that was struck out. In a live box the flag has the other.
#[derive(Clone, Copy)]
struct StruckValue<'a> {
    flags: Flags<'a>,
    flag: u8,
    value: bool,
}

impl fmt::Display for StruckValue<'_> {
    ghost output = { λ said. Some (struck_line said.flags.names.now said.flag said.value) };

    fn fmt<W: fmt::Write>(&self, f: &mut fmt::Formatter<W>) -> fmt::Result {
        let name = self.flags.name(self.flag as usize);
        let gone = yes_or_no(self.value);
        let left = yes_or_no(!self.value);
        write!(f, "  Struck out: {name} cannot be {gone}, so it is {left}.")
    }
}

// What a fact struck out, each value on a line of its own: those that the box had before and has no more.
#[derive(Clone, Copy)]
pub struct StruckOut<'a> {
    pub flags: Flags<'a>,
    pub before: &'a FlagBox,
    pub after: &'a FlagBox,
}

impl StruckOut<'_> {
    // Whether the flag had the value and has it no more.
    fn is_struck(&self, flag: u8, value: bool) -> bool
        ensures { result ≡ is_struck (at self.now.before.now) (at self.now.after.now) flag value }
    {
        self.before.get(flag).contains(value) && !self.after.get(flag).contains(value)
    }

    // Says so.
    fn write_value<W: fmt::Write>(
        &self,
        f: &mut fmt::Formatter<W>,
        flag: u8,
        value: bool,
    ) -> fmt::Result
        ensures { DisplaysOnOk W.write_str_gives f.old result (Some (struck_text self.now.flags.names.now (at self.now.before.now) (at self.now.after.now) flag value)) f.new }
    {
        if !self.is_struck(flag, value) {
            return Ok(());
        }
        let flags = self.flags;
        writeln!(f, "{}", StruckValue { flags, flag, value })
    }
}

impl fmt::Display for StruckOut<'_> {
    ghost output = { λ said. Some (struck_below said.flags.names.now (at said.before.now) (at said.after.now) 256) };

    fn fmt<W: fmt::Write>(&self, f: &mut fmt::Formatter<W>) -> fmt::Result {
        for flag in 0..=u8::MAX {
            self.write_value(f, flag, false)?;
            self.write_value(f, flag, true)?;
        }
        Ok(())
    }
}

// The flags that have a name and may still be either.
#[derive(Clone, Copy)]
pub struct StillOpen<'a> {
    pub flags: Flags<'a>,
    pub b: &'a FlagBox,
}

impl StillOpen<'_> {
    // Whether the flag has a name and may still be either.
    fn is_open(&self, flag: u8) -> bool
        ensures { result ≡ is_open self.now.flags.names.now (at self.now.b.now) flag }
    {
        let set = self.b.get(flag);
        usize::from(flag) < self.flags.names.len() && set.contains(false) && set.contains(true)
    }

    // Then writes its name, where none was written yet or after the others.
    fn write_name<W: fmt::Write>(
        &self,
        f: &mut fmt::Formatter<W>,
        flag: u8,
        none: bool,
    ) -> fmt::Result
        ensures { DisplaysOnOk W.write_str_gives f.old result (Some (open_text self.now.flags.names.now (at self.now.b.now) none flag)) f.new }
    {
        if !self.is_open(flag) {
            return Ok(());
        }
        let separator = before_name(none);
        let name = self.flags.name(usize::from(flag));
        write!(f, "{separator}{name}")
    }
}

fn before_name(none: bool) -> &'static str
    ensures { result.now ≡ (if none then codes " " else codes ", ") }
{
    if none { " " } else { ", " }
}

fn after_names(none: bool) -> &'static str
    ensures { result.now ≡ (if none then codes " nothing." else codes ".") }
{
    if none { " nothing." } else { "." }
}

impl fmt::Display for StillOpen<'_> {
    ghost output = { λ said. Some (still_open_text said.flags.names.now (at said.b.now)) };

    fn fmt<W: fmt::Write>(&self, f: &mut fmt::Formatter<W>) -> fmt::Result {
        f.write_str("  Still open:")?;
        let mut none = true;
        for flag in 0..=u8::MAX {
            self.write_name(f, flag, none)?;
            none &= !self.is_open(flag);
        }
        f.write_str(after_names(none))
    }
}

const CONTRADICTION: &str =
    "  That cannot be: no set of flags fits it together with what was told before, so it is not kept.";

// What telling a fact came to: what it struck out, or that it cannot be.
#[derive(Clone, Copy)]
pub struct Outcome<'a> {
    pub verdict: Verdict,
    pub struck: StruckOut<'a>,
}

impl fmt::Display for Outcome<'_> {
    ghost output = { λ said. Some (outcome_text said.verdict (struck_below said.struck.flags.names.now (at said.struck.before.now) (at said.struck.after.now) 256)) };

    fn fmt<W: fmt::Write>(&self, f: &mut fmt::Formatter<W>) -> fmt::Result {
        match self.verdict {
            Verdict::Alive => {
                let struck = self.struck;
                write!(f, "{struck}")
            }
            Verdict::Dead => writeln!(f, "{CONTRADICTION}"),
        }
    }
}
