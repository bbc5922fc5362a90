//! The words of grammar files: what is passed over, and where words end. What is wanted is what bison reports.
use super::text::{Row, check_rows};

/// Files whose words are names, numbers, types and code, between comments.
#[rattlefmt::skip]
const WORDS: [Row; 12] = [
    // A comma is white space, and a semicolon ends a declaration.
    ("%token A, B;;\n%nterm s;\n%%\ns: A B;;\n",
     "$end error A B",
     "\n $accept : s $end\n s : A B"),
    // Types hold types and arrows.
    ("%token <a<b>> A <c->d> B\n%type <x> s\n%%\ns: A B\n",
     "$end error A B",
     "\n $accept : s $end\n s : A B"),
    // Names have dashes and dots.
    ("%token a-b c.d .e _f\n%%\ns-x.y: a-b c.d .e _f\n",
     "$end error a-b c.d .e _f",
     "\n $accept : s-x.y $end\n s-x.y : a-b c.d .e _f"),
    // A comment ends at a star before a slash alone, and its own first star is no such star.
    ("%token A /* * / B */ /*/ C */ /***/\n// D\n%%\ns: A /* ' */ // { ",
     "$end error A",
     "\n $accept : s $end\n s : A"),
    // Code ends at its own brace, and the file may end within a comment.
    ("%token A\n%%\ns: A { a/'}'; b = '\\''; \"}\\\"}\"; /* } */ // }\n } A // the end",
     "$end error A",
     "\n $accept : s $end\n $@1 :\n s : A $@1 A"),
    // In code a comment goes on behind a backslash.
    ("%token A\n%%\ns: A { // goes on \\\n } ' \\\n '\n } A\n",
     "$end error A",
     "\n $accept : s $end\n $@1 :\n s : A $@1 A"),
    // Digraphs are braces.
    ("%token A\n%%\ns: A { <% } } A { x <<% y; } A\n",
     "$end error A",
     "\n $accept : s $end\n $@1 :\n $@2 :\n s : A $@1 A $@2 A"),
    // A prologue has strings and comments too.
    ("%{ char *s = \"%}\"; /* %} */ %}\n%token A\n%%\ns: A\n",
     "$end error A",
     "\n $accept : s $end\n s : A"),
    // A character goes by one name, however it is written.
    ("%token A\n%%\ns: A '\\\\' '\\n' '\\'' '\\x41' 'A' '\\101' '\\377' '\"' ' ' '\\a'\n",
     "$end error A '\\\\' '\\n' '\\'' 'A' '\\377' '\"' ' ' '\\a'",
     "\n $accept : s $end\n s : A '\\\\' '\\n' '\\'' 'A' 'A' 'A' '\\377' '\"' ' ' '\\a'"),
    // A text keeps its escapes.
    ("%token A \"\\\"\\\\\\x41\\n\"\n%%\ns: A\n",
     "$end error \"\\\"\\\\\\x41\\n\"",
     "\n $accept : s $end\n s : \"\\\"\\\\\\x41\\n\""),
    // A text may be one to translate.
    ("%token A _(\"the \\\"A\\\"\") B _ _b\n%%\ns: A B _ _b\n",
     "$end error \"the \\\"A\\\"\" B _ _b",
     "\n $accept : s $end\n s : \"the \\\"A\\\"\" B _ _b"),
    // What stands behind the second mark is passed over.
    ("%token A B\n%%\ns: A\n%%\ns: B\n",
     "$end error A B",
     "\n $accept : s $end\n s : A"),
];

#[test]
fn words_end_where_they_do_in_bison(rt: HostRuntime) {
    check_rows(&rt, &WORDS);
}
