//! The functions: one table.
ghost use Rattle.std.specs.Prelude.{◌≡◌, ◌≢◌, IfSome, IfNone, nat_le, true};
ghost use Rattle.std.specs.Option.{option_map_or};
ghost use Rattle.tmpl_funcs.specs.Arguments.{counts};
ghost use Rattle.tmpl_funcs.specs.Func.{makes_text, name_of, row_of, takes};
ghost use Rattle.tmpl_funcs.specs.declared.func.Func.{Func};

/// A function that a template may call ("Functions" in the documentation of `text/template`).
#[derive(Clone, Copy, Debug, PartialEq, Eq)]
pub enum Func {
    And,
    Or,
    Not,
    Len,
    Index,
    Slice,
    Print,
    Println,
    Printf,
    Html,
    Urlquery,
    Eq,
    Ne,
    Lt,
    Le,
    Gt,
    Ge,
}

/// The functions, each once.
const FUNCS: [Func; 17] = [
    Func::And,
    Func::Or,
    Func::Not,
    Func::Len,
    Func::Index,
    Func::Slice,
    Func::Print,
    Func::Println,
    Func::Printf,
    Func::Html,
    Func::Urlquery,
    Func::Eq,
    Func::Ne,
    Func::Lt,
    Func::Le,
    Func::Gt,
    Func::Ge,
];

/// A row of the table of functions: the name, the least number of arguments and the greatest, if there is one, and
/// whether the function makes a text, and so takes memory.
#[derive(Clone, Copy)]
struct Row {
    name: &'static str,
    least: u64,
    most: Option<u64>,
    makes_text: bool,
}

impl Func {
    /// The function of this name, if there is one.
    pub fn named(name: &[u8]) -> Option<Func>
        ensures known { IfSome result (λ f. name_of f ≡ name.now) }
        ensures unknown { IfNone result ((f : Func) → name_of f ≢ name.now) }
    {
        for func in FUNCS {
            if func.name().as_bytes() == name {
                return Some(func);
            }
        }
        None
    }

    /// Its name.
    pub fn name(self) -> &'static str
        ensures { result.now ≡ name_of self }
    {
        self.row().name
    }

    /// Whether it takes this number of arguments. `slice` takes at most three, by our own profile.
    pub fn takes(self, count: u64) -> bool
        ensures { result ≡ takes self count }
    {
        let row = self.row();
        row.least <= count && is_within(count, row.most)
    }

    /// Whether it makes a text, and so takes memory.
    pub fn makes_text(self) -> bool
        ensures { result ≡ makes_text self }
    {
        self.row().makes_text
    }

    /// Its row of the table. What it gives for arguments stands in `call`.
    fn row(self) -> Row
        ensures name { result.name.now ≡ (row_of self).name }
        ensures least { result.least ≡ (counts (row_of self).arguments).0 }
        ensures most { result.most ≡ (counts (row_of self).arguments).1 }
        ensures makes_text { result.makes_text ≡ (row_of self).makes_text }
    {
        match self {
            Func::And => Row::new("and", 1, None, false),
            Func::Or => Row::new("or", 1, None, false),
            Func::Not => Row::new("not", 1, Some(1), false),
            Func::Len => Row::new("len", 1, Some(1), false),
            Func::Index => Row::new("index", 1, None, false),
            Func::Slice => Row::new("slice", 1, Some(3), false),
            Func::Print => Row::new("print", 0, None, true),
            Func::Println => Row::new("println", 0, None, true),
            Func::Printf => Row::new("printf", 1, None, true),
            Func::Html => Row::new("html", 0, None, true),
            Func::Urlquery => Row::new("urlquery", 0, None, true),
            Func::Eq => Row::new("eq", 2, None, false),
            Func::Ne => Row::new("ne", 2, Some(2), false),
            Func::Lt => Row::new("lt", 2, Some(2), false),
            Func::Le => Row::new("le", 2, Some(2), false),
            Func::Gt => Row::new("gt", 2, Some(2), false),
            Func::Ge => Row::new("ge", 2, Some(2), false),
        }
    }
}

impl Row {
    /// The row of these columns.
    fn new(name: &'static str, least: u64, most: Option<u64>, makes_text: bool) -> Row
        ensures name { result.name.now ≡ name.now }
        ensures least { result.least ≡ least }
        ensures most { result.most ≡ most }
        ensures makes_text { result.makes_text ≡ makes_text }
    {
        Row {
            name,
            least,
            most,
            makes_text,
        }
    }
}

/// Whether a number is at most the greatest, if there is one.
fn is_within(count: u64, most: Option<u64>) -> bool
    ensures { result ≡ option_map_or (nat_le count) most true }
{
    match most {
        None => true,
        Some(most) => count <= most,
    }
}
