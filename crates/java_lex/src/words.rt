//! The spellings of the words and symbols that texts are written with.

pub const CLASS: &[u8] = b"class";

pub const NULLABLE_BY_DEFAULT: &[u8] = b"nullable_by_default";

pub const NON_NULL_BY_DEFAULT: &[u8] = b"non_null_by_default";

pub const STATIC: &[u8] = b"static";

pub const NULLABLE: &[u8] = b"nullable";

pub const NON_NULL: &[u8] = b"non_null";

pub const INVARIANT: &[u8] = b"invariant";

pub const REQUIRES: &[u8] = b"requires";

pub const ENSURES: &[u8] = b"ensures";

pub const VOID: &[u8] = b"void";

pub const INT: &[u8] = b"int";

pub const BOOLEAN: &[u8] = b"boolean";

pub const IF: &[u8] = b"if";

pub const ELSE: &[u8] = b"else";

pub const WHILE: &[u8] = b"while";

pub const RETURN: &[u8] = b"return";

pub const THIS: &[u8] = b"this";

pub const NEW: &[u8] = b"new";

pub const TRUE: &[u8] = b"true";

pub const FALSE: &[u8] = b"false";

pub const NULL: &[u8] = b"null";

pub const RESULT_VALUE: &[u8] = b"\\result";

pub const OLD: &[u8] = b"\\old";

pub const FORALL: &[u8] = b"\\forall";

pub const EXISTS: &[u8] = b"\\exists";

pub const REACH: &[u8] = b"\\reach";

pub const OPEN_BRACE: &[u8] = b"{";

pub const CLOSE_BRACE: &[u8] = b"}";

pub const OPEN_PAREN: &[u8] = b"(";

pub const CLOSE_PAREN: &[u8] = b")";

pub const SEMICOLON: &[u8] = b";";

pub const COMMA: &[u8] = b",";

pub const DOT: &[u8] = b".";

pub const ASSIGN: &[u8] = b"=";

pub const EQUAL: &[u8] = b"==";

pub const NOT_EQUAL: &[u8] = b"!=";

pub const LESS: &[u8] = b"<";

pub const AT_MOST: &[u8] = b"<=";

pub const GREATER: &[u8] = b">";

pub const AT_LEAST: &[u8] = b">=";

pub const PLUS: &[u8] = b"+";

pub const MINUS: &[u8] = b"-";

pub const TIMES: &[u8] = b"*";

pub const NOT: &[u8] = b"!";

pub const AND: &[u8] = b"&&";

pub const OR: &[u8] = b"||";

pub const INCREMENT: &[u8] = b"++";

pub const DECREMENT: &[u8] = b"--";

pub const IMPLIES: &[u8] = b"==>";

pub const IFF: &[u8] = b"<==>";

/// Two names that mean something behind `\reach(..).` alone.
pub const HAS: &[u8] = b"has";

pub const INT_SIZE: &[u8] = b"int_size";
