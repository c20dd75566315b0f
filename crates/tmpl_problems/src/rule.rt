//! The rules that what is found breaks.
ghost use Rattle.std.specs.Prelude.{◌≡◌, map};
ghost use Rattle.tmpl_problems.specs.Errors.{data_rule_for, rule_for};
ghost use Rattle.tmpl_problems.specs.Rules.{rules};

use crate::data_check::DataReason;
use tmpl_syntax::ParseKind;

/// A rule.
#[derive(Clone, Copy)]
pub struct Rule {
    /// Its name, in words with hyphens.
    pub id: &'static str,
    /// What it asks for.
    pub text: &'static str,
}

pub const UNREADABLE: Rule = Rule {
    id: "unreadable",
    text: "An action is closed by \"}}\", and tokens stand in it.",
};

pub const NOT_UNDERSTOOD: Rule = Rule {
    id: "not-understood",
    text: "The tokens of an action fit together, and each function is there.",
};

pub const OUT_OF_PLACE: Rule = Rule {
    id: "out-of-place",
    text: "An end, else, break, continue or define stands where it belongs to something.",
};

pub const UNDECLARED_VARIABLE: Rule = Rule {
    id: "undeclared-variable",
    text: "A variable is declared before it is used, in the same part or around it.",
};

pub const OPEN_AT_END: Rule = Rule {
    id: "open-at-end",
    text: "Each if, with, range, define and block has its end.",
};

pub const NESTED_TOO_DEEPLY: Rule = Rule {
    id: "nested-too-deeply",
    text: "At most 500 controls and blocks are open, and 100 parentheses.",
};

pub const TOO_LONG: Rule = Rule {
    id: "too-long",
    text: "A file has at most 16,777,216 bytes.",
};

pub const SECOND_DEFINITION: Rule = Rule {
    id: "second-definition",
    text: "A file defines a template once.",
};

pub const TOO_MANY_ERRORS: Rule = Rule {
    id: "too-many-errors",
    text: "A file has at most 1,000 errors.",
};

pub const NOT_JSON: Rule = Rule {
    id: "not-json",
    text: "Data is JSON.",
};

pub const NUMBER_NOT_WHOLE: Rule = Rule {
    id: "number-not-whole",
    text: "A number of data is whole and has 64 signed bits.",
};

pub const SUSPICIOUS: Rule = Rule {
    id: "suspicious",
    text: "A variable is used, and a text does not look like an action.",
};

pub const NO_SUCH_TEMPLATE: Rule = Rule {
    id: "no-such-template",
    text: "A file defines the template that is called or asked for.",
};

pub const NEVER_CALLED: Rule = Rule {
    id: "never-called",
    text: "A template is called, or is the one that is asked for.",
};

pub const KEY_GIVEN_TWICE: Rule = Rule {
    id: "key-given-twice",
    text: "An object of data has a key once.",
};

pub const SCHEMA_NOT_UNDERSTOOD: Rule = Rule {
    id: "schema-not-understood",
    text: "A schema has keywords that are known, each with a value that it takes.",
};

pub const SCHEMA_WITHOUT_VALUES: Rule = Rule {
    id: "schema-without-values",
    text: "To each part of a schema some value conforms.",
};

pub const MAY_FAIL: Rule = Rule {
    id: "may-fail",
    text: "A template renders without a fault whatever data of the schema it is given.",
};

pub const ALWAYS_FAILS: Rule = Rule {
    id: "always-fails",
    text: "A command does not fail whatever the data is.",
};

pub const FAILS_OVER_DATA: Rule = Rule {
    id: "fails-over-data",
    text: "A template renders without a fault over the data that is given.",
};

pub const NOT_RENDERED_WHOLE: Rule = Rule {
    id: "not-rendered-whole",
    text: "A run over the data that is given ends within the limits of the check.",
};

pub const DOES_NOT_CONFORM: Rule = Rule {
    id: "does-not-conform",
    text: "Data conforms to the schema.",
};

pub const NOT_OF_FORMAT: Rule = Rule {
    id: "not-of-format",
    text: "The output is of the format that is asked for.",
};

/// All rules, in the order in which they are printed.
pub(crate) fn all_rules() -> [Rule; 23]
    ensures { map (λ rule. (rule.id.now, rule.text.now)) result ≡ rules }
{
    [
        UNREADABLE,
        NOT_UNDERSTOOD,
        OUT_OF_PLACE,
        UNDECLARED_VARIABLE,
        OPEN_AT_END,
        NESTED_TOO_DEEPLY,
        TOO_LONG,
        SECOND_DEFINITION,
        TOO_MANY_ERRORS,
        NOT_JSON,
        NUMBER_NOT_WHOLE,
        SUSPICIOUS,
        NO_SUCH_TEMPLATE,
        NEVER_CALLED,
        KEY_GIVEN_TWICE,
        SCHEMA_NOT_UNDERSTOOD,
        SCHEMA_WITHOUT_VALUES,
        MAY_FAIL,
        ALWAYS_FAILS,
        FAILS_OVER_DATA,
        NOT_RENDERED_WHOLE,
        DOES_NOT_CONFORM,
        NOT_OF_FORMAT,
    ]
}

/// The rule that a refusal for this reason breaks; out of memory is an error of its own.
pub(crate) fn rule_of(kind: ParseKind) -> Rule
    ensures { result.id.now ≡ rule_for kind }
{
    match kind {
        ParseKind::Unreadable | ParseKind::OutOfMemory => UNREADABLE,
        ParseKind::NotAnAction => NOT_UNDERSTOOD,
        ParseKind::OutOfPlace => OUT_OF_PLACE,
        ParseKind::UndeclaredVariable => UNDECLARED_VARIABLE,
        ParseKind::OpenAtEnd => OPEN_AT_END,
        ParseKind::NestedTooDeeply => NESTED_TOO_DEEPLY,
        ParseKind::TooLong => TOO_LONG,
        ParseKind::SecondDefinition => SECOND_DEFINITION,
    }
}

/// The rule that data breaks which is refused for this reason.
pub(crate) fn data_rule_of(reason: DataReason) -> Rule
    ensures { result.id.now ≡ data_rule_for reason }
{
    match reason {
        DataReason::NotJson => NOT_JSON,
        DataReason::NotWhole => NUMBER_NOT_WHOLE,
    }
}
