//! What to write for functions that other tools have: made by migration/make.py of migration/functions.json.

/// Functions of other tools, their names parted by spaces, and what serves in their place.
struct Row {
    names: &'static str,
    text: &'static str,
}

/// What to write in place of this function of another tool, if something serves.
pub(crate) fn instead_of(name: &[u8]) -> Option<&'static str> {
    text_in(SPRIG.as_slice(), name)
        .or(text_in(GOMPLATE.as_slice(), name))
        .or(text_in(CONSUL_TEMPLATE.as_slice(), name))
        .or(text_in(JINJA.as_slice(), name))
        .or(text_in(GITHUB_ACTIONS.as_slice(), name))
}

/// The text of the row that has this name.
fn text_in(rows: &[Row], name: &[u8]) -> Option<&'static str> {
    for row in rows {
        if row.names.split(' ').any(|known| known.as_bytes() == name) {
            return Some(row.text);
        }
    }
    None
}

/// Of Sprig.
static SPRIG: [Row; 52] = [
    Row {
        names: "default",
        text: "write or (index . \"x\") \"d\"",
    },
    Row {
        names: "coalesce firstOf",
        text: "write or .a .b .c",
    },
    Row {
        names: "ternary",
        text: "write {{if P}}A{{else}}B{{end}}",
    },
    Row {
        names: "required assert",
        text: "use --missingkey error, or write {{if eq (index . \"x\") nil}}{{template \"no x\"}}{{end}}, and the error line has its name",
    },
    Row {
        names: "fail",
        text: "write {{template \"stop: message\"}}, and the error line has its name",
    },
    Row {
        names: "empty",
        text: "write not .x",
    },
    Row {
        names: "isset exists defined",
        text: "write ne (index . \"x\") nil",
    },
    Row {
        names: "quote",
        text: "write {{template \"yaml\" .x}} of examples/quotes, or json, sh, systemd or nginx by the format of the output",
    },
    Row {
        names: "squote",
        text: "write {{template \"sh\" .x}} of examples/quotes",
    },
    Row {
        names: "toJson toJSON toPrettyJson toRawJson mustToJson mustToPrettyJson mustToRawJson json jsonify tojson",
        text: "write {{template \"to json\" .x}} of examples/quotes",
    },
    Row {
        names: "js jsEscape",
        text: "write {{template \"json\" .x}} of examples/quotes",
    },
    Row {
        names: "toYaml toYAML mustToYaml toToml toTOML",
        text: "write {{template \"to json\" .x}} of examples/quotes",
    },
    Row {
        names: "upper toUpper",
        text: "write {{template \"upper\" .x}} of examples/quotes",
    },
    Row {
        names: "lower toLower",
        text: "write {{template \"lower\" .x}} of examples/quotes",
    },
    Row {
        names: "trim trimSpace",
        text: "write {{template \"trim\" .x}} of examples/quotes",
    },
    Row {
        names: "indent nindent",
        text: "write {{template \"indent\" (print 4 \":\" .x)}} of examples/quotes",
    },
    Row {
        names: "repeat",
        text: "write {{template \"repeat\" (print 3 \":\" .x)}} of examples/quotes",
    },
    Row {
        names: "replace replaceAll",
        text: "write {{template \"replace\" (print \"/a/b/\" .x)}} of examples/quotes",
    },
    Row {
        names: "join",
        text: "write {{range $i, $e := .x}}{{if $i}}, {{end}}{{$e}}{{end}}",
    },
    Row {
        names: "trunc abbrev truncate",
        text: "write printf \"%.5s\" .x",
    },
    Row {
        names: "substr substring",
        text: "write slice .x 1 3",
    },
    Row {
        names: "cat",
        text: "write printf \"%s %s\" .a .b",
    },
    Row {
        names: "contains hasPrefix hasSuffix regexMatch matches startswith endswith",
        text: "put a boolean into the data",
    },
    Row {
        names: "trimSuffix trimPrefix trimAll title toTitle capitalize",
        text: "change the string in the data",
    },
    Row {
        names: "regexReplaceAll",
        text: "change the string in the data",
    },
    Row {
        names: "split splitList splitn",
        text: "split the string in the data",
    },
    Row {
        names: "list dict set merge mergeOverwrite tuple append prepend concat omit pick",
        text: "build the list or map in the data",
    },
    Row {
        names: "get",
        text: "write index .x \"k\"",
    },
    Row {
        names: "hasKey",
        text: "write ne (index .x \"k\") nil",
    },
    Row {
        names: "has",
        text: "write {{range .x}}{{if eq . \"a\"}}{{$found = true}}{{end}}{{end}} after {{$found := false}}",
    },
    Row {
        names: "keys values items",
        text: "write {{range $key, $value := .x}}",
    },
    Row {
        names: "first head",
        text: "write index .x 0",
    },
    Row {
        names: "rest tail",
        text: "write slice .x 1",
    },
    Row {
        names: "last",
        text: "write {{range .x}}{{$last = .}}{{end}} after {{$last := \"\"}}",
    },
    Row {
        names: "uniq unique sortAlpha sort reverse",
        text: "sort the list in the data",
    },
    Row {
        names: "dig",
        text: "write {{with index . \"a\"}} for each level",
    },
    Row {
        names: "until untilStep times loop",
        text: "write {{range 5}}",
    },
    Row {
        names: "add sub sum avg mul div addf subf mulf divf multiply divide subtract seq",
        text: "there is no arithmetic: compute it in the data",
    },
    Row {
        names: "add1 inc",
        text: "there is no arithmetic: compute it in the data; to count write {{$n = print $n \".\"}} and {{len $n}} after {{$n := \"\"}}",
    },
    Row {
        names: "mod modulo",
        text: "there is no arithmetic: compute it in the data; for each second turn write {{$odd = not $odd}} after {{$odd := false}}",
    },
    Row {
        names: "max min",
        text: "write {{if gt .a .b}}{{.a}}{{else}}{{.b}}{{end}}",
    },
    Row {
        names: "int int64 float64 round floor ceil",
        text: "there is no arithmetic: compute it in the data",
    },
    Row {
        names: "kindIs kindOf typeIs typeOf",
        text: "put its kind into the data",
    },
    Row {
        names: "length lenght count size",
        text: "write len .x",
    },
    Row {
        names: "b64enc b64dec base64Encode base64Decode",
        text: "compute it in the data",
    },
    Row {
        names: "sha256sum sha1sum sha256 md5 md5sum uuidv4 genPrivateKey genCA genSignedCert genSelfSignedCert randAlphaNum randAlpha randNumeric derivePassword bcrypt htpasswd",
        text: "compute it in the data",
    },
    Row {
        names: "now date dateInZone dateModify timestamp",
        text: "put the time into the data",
    },
    Row {
        names: "include partial import embed",
        text: "write {{template \"name\" .}}, and its lines with the indentation that they need: a template can't be piped",
    },
    Row {
        names: "tpl",
        text: "a string of the data is never a template",
    },
    Row {
        names: "lookup env",
        text: "put it into the data: a run reads only the files of its command line",
    },
    Row {
        names: "toString string str",
        text: "write print .x",
    },
    Row {
        names: "sprintf fmt format",
        text: "write printf \"%s\" .x",
    },
];

/// Of gomplate.
static GOMPLATE: [Row; 7] = [
    Row {
        names: "getenv",
        text: "put it into the data: a run reads only the files of its command line",
    },
    Row {
        names: "ds datasource",
        text: "put it into the data: a run reads only the files of its command line",
    },
    Row {
        names: "strings",
        text: "write a template of examples/quotes, as {{template \"upper\" .x}}",
    },
    Row {
        names: "math",
        text: "there is no arithmetic: compute it in the data",
    },
    Row {
        names: "coll conv data",
        text: "build it in the data",
    },
    Row {
        names: "time",
        text: "put the time into the data",
    },
    Row {
        names: "random crypto base64 regexp uuid net path aws",
        text: "compute it in the data",
    },
];

/// Of consul-template.
static CONSUL_TEMPLATE: [Row; 6] = [
    Row {
        names: "key keyOrDefault keyExists tree safeTree safeLs",
        text: "put it into the data: a run reads only the files of its command line",
    },
    Row {
        names: "secret",
        text: "put it into the data: a run reads only the files of its command line",
    },
    Row {
        names: "service services node nodes ls datacenters",
        text: "put it into the data: a run reads only the files of its command line",
    },
    Row {
        names: "file",
        text: "put it into the data: a run reads only the files of its command line",
    },
    Row {
        names: "parseJSON parseYAML parseInt parseFloat parseBool parseUint fromJson fromYaml",
        text: "parse it in the data",
    },
    Row {
        names: "byKey byTag scratch explode",
        text: "build it in the data",
    },
];

/// Of Jinja.
static JINJA: [Row; 18] = [
    Row {
        names: "unless",
        text: "write {{if not .x}}",
    },
    Row {
        names: "null none None undefined",
        text: "write nil",
    },
    Row {
        names: "elif elsif elseif elseIf",
        text: "write {{else if P}}",
    },
    Row {
        names: "endif endfor endrange endwith endblock endunless endforeach fi done",
        text: "write {{end}}",
    },
    Row {
        names: "for foreach each",
        text: "write {{range .list}}",
    },
    Row {
        names: "in",
        text: "write {{range .list}}; to ask for a member put a boolean into the data",
    },
    Row {
        names: "var let assign",
        text: "write {{$x := P}}",
    },
    Row {
        names: "is equals equal",
        text: "write eq .a .b",
    },
    Row {
        names: "isnt",
        text: "write ne .a .b",
    },
    Row {
        names: "any",
        text: "write or .a .b",
    },
    Row {
        names: "all every",
        text: "write and .a .b",
    },
    Row {
        names: "extends super",
        text: "write {{block \"name\" .}} and define it in a later file",
    },
    Row {
        names: "macro",
        text: "write {{define \"name\"}}",
    },
    Row {
        names: "True",
        text: "write true",
    },
    Row {
        names: "False",
        text: "write false",
    },
    Row {
        names: "escape e htmlEscape",
        text: "write html .x",
    },
    Row {
        names: "urlencode urlEncode queryEscape",
        text: "write urlquery .x",
    },
    Row {
        names: "echo put puts out write",
        text: "write print .x",
    },
];

/// Of GitHub Actions.
static GITHUB_ACTIONS: [Row; 2] = [
    Row {
        names: "matrix github secrets runner needs steps inputs vars strategy",
        text: "to keep an expression of GitHub Actions write {{\"${{ matrix.os }}\"}}",
    },
    Row {
        names: "hashFiles success failure always cancelled",
        text: "to keep an expression of GitHub Actions write {{\"${{ always() }}\"}}",
    },
];
