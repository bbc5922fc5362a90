//! The parts of a parser in C that are the same for each grammar.

use crate::form::Parts;

/// The parts. Tokens and rules are members of one `enum`.
pub static PARTS: Parts = Parts {
    usage: USAGE,
    tokens: "\n",
    rules: "\n",
    characters: CHARACTERS,
    names: NAMES,
    arrays: NAMES_END,
    parser: PARSER,
    push: PUSH,
};

/// How the parser is used, the type of values, and what begins the constants.
const USAGE: &str = "\
// Define PARSER_VALUE as the type of your values, if that isn't int, and include this file. Then
//     struct parser parser;
//     parser_begin(&parser);
//     do status = parser_push(&parser, token, value, reduce, data); while (status == PARSER_MORE);
//     if (status == PARSER_ACCEPTED) use(parser.values[0]);
//     parser_end(&parser);
// parses a text: its tokens, each TOKEN_.. or parser_character('+'), and 0 after the last. For each rule that ends
// your function reduce(rule, values, data) gets RULE_.. and the values of its right side, and returns that of its left.

#include <stdlib.h>

#ifndef PARSER_VALUE
#define PARSER_VALUE int
#endif

enum {
";

/// What begins the function of characters.
const CHARACTERS: &str = "\
};

// Returns the token that is a character in quotes, or -1 if there is none.
static inline int parser_character(int character)
{
    switch (character) {
";

/// What ends the function of characters, and begins that of names.
const NAMES: &str = "    default: return -1;
    }
}

// Returns the name of a symbol: a terminal, or PARSER_TERMINALS and a nonterminal.
static inline const char *parser_name(int symbol)
{
    static const char *const names[] = {
";

/// What ends the function of names.
const NAMES_END: &str = "    };
    return names[symbol];
}
";

/// What a parser is, how it begins and how it ends.
const PARSER: &str = "
// What becomes of a token.
enum parser_status { PARSER_MORE, PARSER_ACCEPTED, PARSER_UNEXPECTED, PARSER_MEMORY };

// Returns the value of the left side of a rule, given those of its right side, and the data of parser_push.
typedef PARSER_VALUE parser_reduce(int rule, PARSER_VALUE *values, void *data);

// The symbols that were read and not yet reduced: their values, and the state before each and after the last.
struct parser {
    size_t depth, room;
    PARSER_VALUE *values;
    int *states;
};

// Begins a parser.
static inline void parser_begin(struct parser *parser)
{
    parser->depth = parser->room = 0;
    parser->values = NULL;
    parser->states = NULL;
}

// Frees the memory of a parser, which begins anew. It frees nothing that values point to.
static inline void parser_end(struct parser *parser)
{
    free(parser->values);
    free(parser->states);
    parser_begin(parser);
}

// Makes room for more symbols. Returns whether there was memory.
static inline int parser_grow(struct parser *parser)
{
    size_t room = 2 * parser->room + 30;
    void *values = realloc(parser->values, room * sizeof *parser->values);
    void *states = realloc(parser->states, (room + 1) * sizeof *parser->states);
    if (values)
        parser->values = (PARSER_VALUE *)values;
    if (states)
        parser->states = (int *)states;
    if (!values || !states)
        return 0;
    parser->states[0] = 0;
    parser->room = room;
    return 1;
}
";

/// How a parser takes tokens.
const PUSH: &str = "
// Returns the action of a state at a symbol: 0 if there is none.
static inline int parser_find(int state, int symbol)
{
    int low = parser_row[state], end = parser_row[state + 1], high = end;
    while (low < high) {
        int middle = low + (high - low) / 2;
        if (parser_symbol[middle] < symbol)
            low = middle + 1;
        else
            high = middle;
    }
    return low < end && parser_symbol[low] == symbol ? parser_action[low] : 0;
}

// Returns 1 if a parser would take a token, and 0 if not, or -1 without memory. Nothing is reduced: the states that
// would be entered stand above the newest one for a while.
static inline int parser_takes(struct parser *parser, int token)
{
    size_t kept = parser->depth, above = 0, length;
    for (;;) {
        int action;
        if (parser->depth + above == parser->room && !parser_grow(parser))
            return -1;
        action = parser_find(parser->states[above ? parser->depth + above : kept], token);
        if (action >= 0)
            return action > 0;
        length = (size_t)parser_length[-action];
        kept -= length > above ? length - above : 0;
        above -= length > above ? above : length;
        action = parser_find(parser->states[above ? parser->depth + above : kept],
                             PARSER_TERMINALS + parser_left[-action]);
        parser->states[parser->depth + ++above] = action;
    }
}

// Enters a state by a symbol, for which there is room.
static inline void parser_enter(struct parser *parser, int state, PARSER_VALUE value)
{
    parser->values[parser->depth++] = value;
    parser->states[parser->depth] = state;
}

// Takes a token and its value. The end is token 0, and its value isn't used. After PARSER_ACCEPTED values[0] is the
// value of the whole text, and the parser begins anew. After PARSER_UNEXPECTED or PARSER_MEMORY all is as before.
static inline enum parser_status parser_push(struct parser *parser, int token, PARSER_VALUE value,
                                             parser_reduce *reduce, void *data)
{
    int action, takes = parser_takes(parser, token);
    if (takes <= 0)
        return takes < 0 ? PARSER_MEMORY : PARSER_UNEXPECTED;
    while ((action = parser_find(parser->states[parser->depth], token)) < 0) {
        PARSER_VALUE left;
        parser->depth -= (size_t)parser_length[-action];
        left = reduce(-action, parser->values + parser->depth, data);
        action = parser_find(parser->states[parser->depth], PARSER_TERMINALS + parser_left[-action]);
        parser_enter(parser, action, left);
    }
    if (token == 0) {
        parser->depth = 0;
        return PARSER_ACCEPTED;
    }
    parser_enter(parser, action, value);
    return PARSER_MORE;
}
";
