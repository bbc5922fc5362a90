//! What files say that tables don't depend on. What is wanted is what bison reports.
use super::support::same;
use std::alloc::{AllocError, Global};
use std::process::Abort;
use vob_yacc::{Details, GrammarText, grammar_of};

/// A file, its terminals with their numbers and types, its nonterminals with their types, and the terminals
/// of `%prec` by their rules.
type Row = (&'static str, &'static str, &'static str, &'static str);

#[rattlefmt::skip]
const FILES: [Row; 6] = [
    // Numbers that a file doesn't give are greater than those that it does.
    ("%token A 300 \"a\" B 0x12d C D 256\n%left '+' \"==\"\n%token X \"xx\"\n%%\n\
      s: A \"a\" B C %prec C | { x } X { $$ = 1 } X { f($4, \"$6\", '$6', /* $6 */ $2) // $6\n } { g() } \
      \"yy\" { } X { $8 } ;\nu: A %prec '+';\n",
     " $end=0 error=302 \"a\"=300 B=301 C=304 D=256 '+'=43 \"==\"=305 \"xx\"=306 \"yy\"=307",
     " $accept s $@1 @2 $@3 $@4 @5", " 1:C"),
    // A type counts up to the next one. An action within a rule may have a type too.
    ("%union { int n; }\n%token <n> A 300 \"a\" <m> B 0x12d C D\n%left <op> '+' \"==\"\n%type <t> s \"xx\"\n\
      %nterm <v> u <w<x->>> v\n%token X \"xx\"\n%%\n\
      s: A \"a\" B C %prec C | <w>{ $$ = 3; } X { $<x->>$ = 1 } X v '+' u ;\nu: A %prec '+'; v: u;\n",
     " $end=0 error=256 \"a\"=300<n> B=301<m> C=303<m> D=304<m> '+'=43<op> \"==\"=305<op> \"xx\"=306<t>",
     " $accept s<t> @1<w> @2 u<v> v<w<x->>>", " 1:C 5:'+'"),
    // The end may be the error token.
    ("%token error 0 A B\n%%\ns: error A B\n", " error=0 A=258 B=259", " $accept s", ""),
    ("%token A E 0 B\n%%\ns: A B E\n", " E=0 error=256 A=258 B=259", " $accept s", ""),
    // A token that a file doesn't declare has the precedence of nothing.
    ("%%\ns: 'a' %prec P | %prec 'b' { $2 } 'a';\n", " $end=0 error=256 'a'=97 P=258 'b'=98",
     " $accept s $@1", " 1:P 3:'b'"),
    // What stands in comments and quotes isn't code.
    ("%%\ns: { /* $$ **/ a / b; \"$$ \\\" $$\" } 'a' { '\\'' $$ } 'b' { // $$\n $1a } 'c' { 2 $3 $1 } 'd';\n",
     " $end=0 error=256 'a'=97 'b'=98 'c'=99 'd'=100", " $accept s @1 @2 $@3 $@4", ""),
];

/// Appends a number.
fn add_number(alloc: Global, text: &mut Vec<u8>, number: usize) -> Result<(), AllocError> {
    text.extend_from_slice(format!(in alloc; "{number}")?.as_bytes())
}

/// Appends a type, if there is one.
fn add_type(text: &mut Vec<u8>, types: &[Vec<u8>], place: usize) -> Result<(), AllocError> {
    match types.get(place) {
        Some(name) if !name.is_empty() => {
            text.push(b'<')?;
            text.extend_from_slice(name)?;
            text.push(b'>')?;
        }
        _ => {}
    }
    Ok(())
}

/// Returns the terminals with their numbers and types.
fn terminals_of(alloc: Global, read: &GrammarText) -> Result<Vec<u8>, AllocError> {
    let Details {
        codes,
        terminal_types,
        ..
    } = &read.details;
    let mut text = Vec::new(alloc);
    for (place, (name, code)) in read.terminals.iter().zip(codes).enumerate() {
        text.push(b' ')?;
        text.extend_from_slice(name)?;
        text.push(b'=')?;
        add_number(alloc, &mut text, *code)?;
        add_type(&mut text, terminal_types, place)?;
    }
    Ok(text)
}

/// Returns the nonterminals with their types.
fn nonterminals_of(alloc: Global, read: &GrammarText) -> Result<Vec<u8>, AllocError> {
    let mut text = Vec::new(alloc);
    for (place, name) in read.nonterminals.iter().enumerate() {
        text.push(b' ')?;
        text.extend_from_slice(name)?;
        add_type(&mut text, &read.details.nonterminal_types, place)?;
    }
    Ok(text)
}

/// Returns the rules with `%prec`, and its terminals.
fn precedences_of(alloc: Global, read: &GrammarText) -> Result<Vec<u8>, AllocError> {
    let mut text = Vec::new(alloc);
    for (rule, terminal) in read.details.rule_terminals.iter().enumerate() {
        if let Some(name) = read.terminals.get(terminal.unwrap_or(usize::MAX)) {
            text.push(b' ')?;
            add_number(alloc, &mut text, rule)?;
            text.push(b':')?;
            text.extend_from_slice(name)?;
        }
    }
    Ok(text)
}

#[test]
fn files_say_what_bison_reports(rt: HostRuntime) {
    let alloc = rt.alloc();
    for (at, (file, terminals, nonterminals, precedences)) in FILES.iter().enumerate() {
        let read = grammar_of(alloc, file.as_bytes()).expect(&rt, "a grammar");
        let own = terminals_of(alloc, &read).expect(&rt, "memory");
        same(
            &rt,
            "the terminals",
            at,
            own.as_slice(),
            terminals.as_bytes(),
        );
        let own = nonterminals_of(alloc, &read).expect(&rt, "memory");
        same(
            &rt,
            "the nonterminals",
            at,
            own.as_slice(),
            nonterminals.as_bytes(),
        );
        let own = precedences_of(alloc, &read).expect(&rt, "memory");
        same(
            &rt,
            "the precedences",
            at,
            own.as_slice(),
            precedences.as_bytes(),
        );
        let counts = (read.details.rule_terminals.len(), read.details.codes.len());
        let wanted = (read.grammar.rules.len(), read.grammar.terminals);
        same(&rt, "as many", at, counts, wanted);
    }
}
