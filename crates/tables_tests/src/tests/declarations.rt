//! Declarations of grammar files. What is wanted is what bison reports.
use super::support::same;
use super::text::{Row, check_rows};
use std::process::Abort;
use vob_yacc::grammar_of;

/// Files that declare tokens, nonterminals and precedences.
#[rattlefmt::skip]
const DECLARATIONS: [Row; 15] = [
    // Nonterminals are numbered as they are declared.
    ("%nterm <t> b a\n%token C\n%%\na: C b; b: C\n",
     "$end error C",
     "\n $accept : a $end\n a : C b\n b : C"),
    // Tokens have numbers and texts, by which they go too.
    ("%token <n> A 300 \"a\" B 0x12d C\n%%\ns: \"a\" A B C\n",
     "$end error \"a\" B C",
     "\n $accept : s $end\n s : \"a\" \"a\" B C"),
    // A text that two tokens want stays with the first, and a token keeps its first text.
    ("%token A \"a\" B \"a\"\n%token A \"b\"\n%%\ns: A \"a\" B \"b\"\n",
     "$end error \"a\" B \"b\"",
     "\n $accept : s $end\n s : \"a\" \"a\" B \"b\""),
    // A token may have been declared by its text.
    ("%left \"x\"\n%token B\n%token X \"x\" C\n%%\ns: X \"x\" B C\n",
     "$end error \"x\":l1 B C",
     "\n $accept : s $end\n s : \"x\" \"x\" B C"),
    // A token may be declared again as it was.
    ("%token A A\n%token A 300\n%token A 300\n%%\ns: A\n",
     "$end error A",
     "\n $accept : s $end\n s : A"),
    // Terminals are numbered as %token declares them, or else as they come first.
    ("%left X\n%token B\n%token X\n%%\na: X B\n",
     "$end error B X:l1",
     "\n $accept : a $end\n a : X B"),
    // Other directives give them no place.
    ("%type <x> X\n%left B\n%left X\n%%\na: X B\n",
     "$end error X:l2 B:l1",
     "\n $accept : a $end\n a : X B"),
    // The first place of a name and of its text counts.
    ("%type <x> \"x\"\n%token B\n%token X \"x\"\n%%\na: X B\n",
     "$end error \"x\" B",
     "\n $accept : a $end\n a : \"x\" B"),
    // The token with number 0 is the end.
    ("%token A B END 0 \"end\" C\n%%\ns: A B C\n",
     "\"end\" error A B C",
     "\n $accept : s \"end\"\n s : A B C"),
    // It may be the error token.
    ("%token error 0 A\n%%\ns: error A\n",
     "error A",
     "\n $accept : s error\n s : error A"),
    // The error token leaves its number to others.
    ("%token A 256\n%%\ns: A error\n",
     "$end error A",
     "\n $accept : s $end\n s : A error"),
    // All operators of a directive bind alike.
    ("%left '+' 43 '-' 45 A 300\n%left \"==\"\n%%\ns: '+' '-' A \"==\"\n",
     "$end error '+':l1 '-':l1 A:l1 \"==\":l2",
     "\n $accept : s $end\n s : '+' '-' A \"==\""),
    // The older name of %nonassoc, and other sides.
    ("%binary A B\n%precedence C\n%right D\n%%\ns: s A s | s B s | C D\n",
     "$end error A:n1 B:n1 C:p2 D:r3",
     "\n $accept : s $end\n s : s A s\n s : s B s\n s : C D"),
    // One start symbol may be named again.
    ("%token A\n%start s s\n%start s\n%%\nt: A; s: t\n",
     "$end error A",
     "\n $accept : s $end\n t : A\n s : t"),
    // What matters to code alone is passed over.
    ("%debug %locations %no-lines %token-table %verbose %yacc %error-verbose\n\
      %language \"c\" %require \"3.0\" %output = \"y.c\" %file-prefix=\"x\" %name-prefix \"z\" %header \"h\" %defines\n\
      %initial-action { a } %code top { b } %union u { int i; } %param { p } { q } %lex-param { r }\n\
      %destructor { d } <a> <*> <> s \"t\" %printer { e } s\n\
      %define api.pure full %define lr.type lalr %define parse.error \"verbose\"\n%%\ns: 't'\n",
     "$end error \"t\" 't'",
     "\n $accept : s $end\n s : 't'"),
];

#[test]
fn declarations_say_what_they_do_in_bison(rt: HostRuntime) {
    check_rows(&rt, &DECLARATIONS);
}

/// Files, and their nonterminals in order: that of their first rules.
#[rattlefmt::skip]
const NONTERMINALS: [(&str, &[&str]); 2] = [
    ("%nterm <t> b a\n%token C\n%%\na: C b; b: C\n", &["$accept", "a", "b"]),
    ("%start t %type <x> r\n%%\ns: { a } r 'a'; t: { b } s { c } r; r: t | 'b'; s: 'c'\n",
     &["$accept", "s", "$@1", "t", "$@2", "$@3", "r"]),
];

/// Compares the nonterminals of a file.
fn check_nonterminals(rt: &(impl Abort + AllocGlobal), at: usize, file: &str, names: &[&str]) {
    let read = grammar_of(rt.alloc(), file.as_bytes()).expect(rt, "a grammar");
    same(
        rt,
        "the nonterminals",
        at,
        read.nonterminals.len(),
        names.len(),
    );
    for (own, name) in read.nonterminals.iter().zip(names) {
        same(rt, "a nonterminal", at, own.as_slice(), name.as_bytes());
    }
}

#[test]
fn nonterminals_are_numbered_as_in_bison(rt: HostRuntime) {
    for (at, (file, names)) in NONTERMINALS.iter().enumerate() {
        check_nonterminals(&rt, at, file, names);
    }
}
