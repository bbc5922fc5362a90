//! The words of the command line.

use clap::builder::ValueParser;
use clap::{Arg, ArgAction, Command};
use files_dot::NOTATIONS;
use files_flow::{ANALYSES, FLOW_FORMS};
use files_graph::GRAPH_FORMS;
use files_parse::TREE_FORMS;
use std::alloc::{AllocError, Global};

/// The name that stands for standard input.
pub const STANDARD_INPUT: &str = "-";

/// What `--version` says of the program.
const VERSION: &str = "0.1.0";

/// What the help of `grammar` says of its states and of the exit status.
const GRAMMAR_HELP: &str = "\
The states are those of the LALR(1) parser that bison makes by default. The
forms of --output are tables with a short parser, or reports:
  c      a file to include in C or C++, whose head says how it is used
  rust   a module of Rust
  xml    as `bison --xml` writes it
  json   symbols, rules and states
  dot    the states as a graph

Exit status: 0; 1 if there are other conflicts than %expect and %expect-rr say,
or any without them; 2 after a fault.

Example: ./conthiral grammar --states examples/files/grammars/sums.y";

/// What the help of `parse` says of its input, of its output and of the exit status.
const PARSE_HELP: &str = "\
White space separates tokens. A quoted character may stand without its quotes.
The rules of the rightmost derivation are printed, that of the start first, or:
  tree   its tree, a node a line
  dot    its tree, a graph in DOT
  json   its tree, nodes in JSON
Conflicts that precedence leaves are decided for the shift, or else for the
rule that comes first, as in bison.

Exit status: 0; 2 after a fault, as a token that the grammar doesn't take.

Example:
  echo 'NUMBER - NUMBER' | ./conthiral parse examples/files/grammars/minus.y";

/// What the help of `closure` says of its input, of --reduce and of the exit status.
const CLOSURE_HELP: &str = "\
A line `a b` is an edge. Names have no comma; a word with # first begins a
comment. A text that begins with digraph, strict or graph is DOT, and directed.
An edge of the closure stands for a path of one edge or more.

With --reduce a graph without cycles keeps the edges that no longer path stands
for. Nodes that lead to one another are joined by one cycle, in the order in
which they are first named; between such groups an edge joins the first named.

Exit status: 0; 2 after a fault.
Example: ./conthiral closure --from curl examples/files/edges.txt";

/// What the help of `flow` says of its input, of its output and of the exit status.
const FLOW_HELP: &str = "\
A line `loop: reads i n; writes t; next body done` is a node; the first, entry.
Names have no comma; # begins a comment. The last two read DOT too (--input).
  live         variables that may be read before they are written
  reaching     definitions that may still hold: x@n is what node n writes to x
  available    expressions, as (i n), computed on all paths to here, not changed
  busy         expressions computed on all paths from here, before they change
  dominators   nodes that all paths from the entry pass; all, if no path leads
  immediate    the nearest of these, but the node itself

Exit status: 0; 2 after a fault.
Example: ./conthiral flow examples/files/flow.txt --analysis live";

/// What may stand between the cells of a table.
const DELIMITERS: [&str; 5] = [",", ";", ":", "|", "tab"];

/// What the help of `filter` says of conditions and of the exit status.
const FILTER_HELP: &str = "\
A condition compares by = != < <= > >=, joined by ! & | in this order, and ().
Double quotes hold spaces and marks, and make a text of a number or of a name.
An empty cell keeps no row by a comparison; ask for it: `NAME is [not] missing`.

Exit status: 0; 1 if --quiet keeps no row; 2 at a fault: rows before it stand.
Example: ./conthiral filter examples/files/cities.csv 'elevation>5 | city=Oslo'";

/// The names of the forms of a grammar: those of parsers, and those of reports.
static GRAMMAR_FORMS: [&str; 5] = ["c", "dot", "json", "rust", "xml"];

/// Returns the argument of a file that may be left out.
fn file_argument<'a>(alloc: Global, help: &'a str) -> Arg<'a> {
    Arg::new(alloc, "file")
        .value_name("FILE")
        .default_value(STANDARD_INPUT)
        .hide_default_value(true)
        .help(help)
}

/// Returns a flag with a long name, which is its id too.
fn flag<'a>(alloc: Global, name: &'a str, help: &'a str) -> Arg<'a> {
    Arg::new(alloc, name)
        .long(name)
        .action(ArgAction::SetTrue)
        .help(help)
}

/// Returns the words of `grammar`.
fn grammar_command<'a>(alloc: Global) -> Result<Command<'a>, AllocError> {
    let file = file_argument(
        alloc,
        "A grammar of yacc or bison; - or none: standard input",
    );
    let states = flag(
        alloc,
        "states",
        "Print the rules, and the states with what a parser does",
    );
    let output = Arg::new(alloc, "output")
        .long("output")
        .value_name("FORM")
        .value_parser(GRAMMAR_FORMS.as_slice())
        .hide_possible_values(true)
        .help("Print a parser or a report, in one of the forms below")
        .conflicts_with("states")?;
    Command::new(alloc, "grammar")
        .about("Print the sets of a grammar: nullable, FIRST and FOLLOW")
        .after_help(GRAMMAR_HELP)
        .arg(states)?
        .arg(output)?
        .arg(file)
}

/// Returns the words of `parse`.
fn parse_command<'a>(alloc: Global) -> Result<Command<'a>, AllocError> {
    let grammar = Arg::new(alloc, "grammar")
        .value_name("GRAMMAR")
        .required(true)
        .help("A grammar of yacc or bison");
    let file = file_argument(alloc, "Names or texts of tokens; - or none: standard input");
    let output = Arg::new(alloc, "output")
        .long("output")
        .value_name("FORM")
        .value_parser(TREE_FORMS.as_slice())
        .hide_possible_values(true)
        .help("Print the tree, in one of the forms below");
    Command::new(alloc, "parse")
        .about("Print how a grammar derives tokens")
        .after_help(PARSE_HELP)
        .arg(output)?
        .arg(grammar)?
        .arg(file)
}

/// Returns the argument of the notation in which a graph stands.
fn notation_argument<'a>(alloc: Global) -> Arg<'a> {
    Arg::new(alloc, "input")
        .long("input")
        .value_name("FORM")
        .value_parser(NOTATIONS.as_slice())
        .hide_possible_values(true)
        .help("Read dot or lines; else dot if digraph begins it")
}

/// Returns the words of `closure`.
fn closure_command<'a>(alloc: Global) -> Result<Command<'a>, AllocError> {
    let file = file_argument(alloc, "Edges; - or none: standard input");
    let from = Arg::new(alloc, "from")
        .long("from")
        .value_name("NODE")
        .help("Print the nodes to which NODE leads, one a line")
        .conflicts_with("reduce")?;
    let reduce = flag(
        alloc,
        "reduce",
        "Print the fewest edges that have the same closure",
    );
    let output = Arg::new(alloc, "output")
        .long("output")
        .value_name("FORM")
        .value_parser(GRAPH_FORMS.as_slice())
        .hide_possible_values(true)
        .help("Print a graph in a form: dot or json");
    Command::new(alloc, "closure")
        .about("Print the edges of the closure of a graph")
        .after_help(CLOSURE_HELP)
        .arg(from)?
        .arg(reduce)?
        .arg(notation_argument(alloc))?
        .arg(output)?
        .arg(file)
}

/// Returns the words of `flow`.
fn flow_command<'a>(alloc: Global) -> Result<Command<'a>, AllocError> {
    let file = file_argument(alloc, "A flow graph; - or none: standard input");
    let analysis = Arg::new(alloc, "analysis")
        .long("analysis")
        .value_name("WHICH")
        .required(true)
        .value_parser(ANALYSES.as_slice())
        .hide_possible_values(true)
        .help("What to find: one of the analyses below");
    let output = Arg::new(alloc, "output")
        .long("output")
        .value_name("FORM")
        .value_parser(FLOW_FORMS.as_slice())
        .hide_possible_values(true)
        .help("Print it in a form: json; or of immediate a tree: dot");
    Command::new(alloc, "flow")
        .about("Print what holds before and after each node of a flow graph")
        .after_help(FLOW_HELP)
        .arg(analysis)?
        .arg(notation_argument(alloc))?
        .arg(output)?
        .arg(file)
}

/// Returns the argument of a page's number.
fn page_argument<'a>(alloc: Global) -> Result<Arg<'a>, AllocError> {
    Arg::new(alloc, "page")
        .long("page")
        .value_name("K")
        .value_parser(ValueParser::unsigned(1, u64::MAX))
        .help("Print the K-th page of the rows that are kept")
        .conflicts_with("count")?
        .conflicts_with("quiet")
}

/// Returns the argument of how many rows a page has.
fn page_size_argument<'a>(alloc: Global) -> Result<Arg<'a>, AllocError> {
    Arg::new(alloc, "page-size")
        .long("page-size")
        .value_name("N")
        .value_parser(ValueParser::unsigned(1, u64::MAX))
        .help("A page has N rows, and else 20; alone, the first page")
        .conflicts_with("count")?
        .conflicts_with("quiet")
}

/// Returns the argument of the columns that are written.
fn select_argument<'a>(alloc: Global) -> Result<Arg<'a>, AllocError> {
    Arg::new(alloc, "select")
        .long("select")
        .value_name("A,B")
        .help("Print these columns, in this order")
        .conflicts_with("count")?
        .conflicts_with("quiet")
}

/// Returns the argument of what stands between cells.
fn delimiter_argument<'a>(alloc: Global) -> Arg<'a> {
    Arg::new(alloc, "delimiter")
        .long("delimiter")
        .value_name("C")
        .value_parser(DELIMITERS.as_slice())
        .hide_possible_values(true)
        .help("What stands between cells: a comma, or one of ; : | tab")
}

/// Returns the argument of the form of rows.
fn rows_argument<'a>(alloc: Global) -> Result<Arg<'a>, AllocError> {
    Arg::new(alloc, "output")
        .long("output")
        .value_name("json")
        .value_parser(["json"].as_slice())
        .hide_possible_values(true)
        .help("Print each row as an object of JSON, a line each")
        .conflicts_with("count")?
        .conflicts_with("quiet")
}

/// Returns the words of `filter`.
fn filter_command<'a>(alloc: Global) -> Result<Command<'a>, AllocError> {
    let file = Arg::new(alloc, "file")
        .value_name("TABLE")
        .required(true)
        .help("CSV with a header, quoted as in RFC 4180; -: standard input");
    let condition = Arg::new(alloc, "condition")
        .value_name("CONDITION")
        .required(true)
        .help("What is to be true of a row");
    let count = flag(alloc, "count", "Print the number of rows that are kept");
    let quiet = flag(
        alloc,
        "quiet",
        "Print nothing; the status is 1 if no row is kept",
    )
    .conflicts_with("count")?;
    Command::new(alloc, "filter")
        .about("Print the rows of a table of which a condition is true")
        .after_help(FILTER_HELP)
        .arg(count)?
        .arg(quiet)?
        .arg(page_argument(alloc)?)?
        .arg(page_size_argument(alloc)?)?
        .arg(select_argument(alloc)?)?
        .arg(delimiter_argument(alloc))?
        .arg(rows_argument(alloc)?)?
        .arg(file)?
        .arg(condition)
}

/// Returns all words that can be given.
pub fn command<'a>(alloc: Global) -> Result<Command<'a>, AllocError> {
    Command::new(alloc, "conthiral")
        .bin_name("conthiral")?
        .about("Sets of bits at work on files")
        .version(VERSION)
        .subcommand_required(true)
        .arg_required_else_help(true)
        .subcommand(grammar_command(alloc)?)?
        .subcommand(parse_command(alloc)?)?
        .subcommand(closure_command(alloc)?)?
        .subcommand(flow_command(alloc)?)?
        .subcommand(filter_command(alloc)?)
}
