//! Rules of grammar files. What is wanted is what bison reports.
use super::text::{Row, check_rows};

/// Files with actions, directives and declarations among the rules.
#[rattlefmt::skip]
const RULES: [Row; 6] = [
    // An action is a symbol if a symbol or an action follows it, and not before `%prec`.
    ("%token A\n%left B\n%%\n\
      s: { a } A { b } A { c } | t; t: A { a } %prec B | { a } { b } A %prec B { c }\n",
     "$end error A B:l1",
     "\n $accept : s $end\n $@1 :\n $@2 :\n s : $@1 A $@2 A\n s : t\n t : A\n $@3 :\n $@4 :\n\
      \x20t : $@3 $@4 A"),
    // So is a predicate.
    ("%token A\n%%\ns: A %?{ p } A %? { q } | { a } %empty\n",
     "$end error A",
     "\n $accept : s $end\n $@1 :\n s : A $@1 A\n s :"),
    // A rule has types, names, numbers and more directives.
    ("%token A\n%%\ns: A <t> { a } A %expect 0 %dprec 1 %merge <m> | A[x] A[y] { x; }[z] A\n",
     "$end error A",
     "\n $accept : s $end\n $@1 :\n s : A $@1 A\n $@2 :\n s : A A $@2 A"),
    // A semicolon ends an alternative, and more may follow.
    ("%token A\n%%\ns: A ; ; | A A; t: A; s: t\n",
     "$end error A",
     "\n $accept : s $end\n s : A\n s : A A\n t : A\n s : t"),
    // Declarations stand among rules.
    ("%token A\n%%\ns: A B t\n%token B;\n%nterm <x> t; t: A 'c'\n%left 'd' C;\n\
      u: s; %start u; %union { int i; } ; %code { x } ;\n",
     "$end error A B 'c' 'd':l1 C:l1",
     "\n $accept : u $end\n s : A B t\n t : A 'c'\n u : s"),
    // `%prec` makes a name a token.
    ("%token A\n%%\ns: A %prec N | N\n",
     "$end error A N",
     "\n $accept : s $end\n s : A\n s : N"),
];

#[test]
fn rules_say_what_they_do_in_bison(rt: HostRuntime) {
    check_rows(&rt, &RULES);
}
