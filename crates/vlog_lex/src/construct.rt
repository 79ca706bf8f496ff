ghost use Rattle.std.specs.Prelude.{◌≡◌, map};
ghost use Rattle.std.specs.List.{list_any};
ghost use Rattle.std.specs.Str.{bytes_eq};
ghost use Rattle.vlog_lex.specs.Construct.{construct_words, is_construct};

/// The keywords that begin with a letter and stand for no construct of this profile (IEEE 1364-2005,
/// annex B).
fn construct_words(letter: u8) -> &'static [&'static [u8]]
    ensures { map (λ word. word.now) result.now ≡ construct_words letter }
{
    match letter {
        b'a' => &[b"always", b"automatic"],
        b'b' => &[b"begin", b"bufif0", b"bufif1"],
        b'c' => &[b"case", b"casex", b"casez", b"cell", b"cmos", b"config"],
        b'd' => &[b"deassign", b"default", b"defparam", b"design", b"disable"],
        b'e' => &[
            b"edge",
            b"else",
            b"end",
            b"endcase",
            b"endconfig",
            b"endfunction",
            b"endgenerate",
            b"endprimitive",
            b"endspecify",
            b"endtable",
            b"endtask",
            b"event",
        ],
        b'f' => &[b"for", b"force", b"forever", b"fork", b"function"],
        b'g' => &[b"generate", b"genvar"],
        b'h' => &[b"highz0", b"highz1"],
        b'i' => &[
            b"if",
            b"ifnone",
            b"incdir",
            b"include",
            b"initial",
            b"inout",
            b"instance",
            b"integer",
        ],
        b'j' => &[b"join"],
        b'l' => &[b"large", b"liblist", b"library", b"localparam"],
        b'm' => &[b"macromodule", b"medium"],
        b'n' => &[
            b"negedge",
            b"nmos",
            b"noshowcancelled",
            b"notif0",
            b"notif1",
        ],
        b'p' => &[
            b"parameter",
            b"pmos",
            b"posedge",
            b"primitive",
            b"pull0",
            b"pull1",
            b"pulldown",
            b"pullup",
            b"pulsestyle_ondetect",
            b"pulsestyle_onevent",
        ],
        b'r' => &[
            b"rcmos",
            b"real",
            b"realtime",
            b"reg",
            b"release",
            b"repeat",
            b"rnmos",
            b"rpmos",
            b"rtran",
            b"rtranif0",
            b"rtranif1",
        ],
        b's' => &[
            b"scalared",
            b"showcancelled",
            b"signed",
            b"small",
            b"specify",
            b"specparam",
            b"strong0",
            b"strong1",
            b"supply0",
            b"supply1",
        ],
        b't' => &[
            b"table", b"task", b"time", b"tran", b"tranif0", b"tranif1", b"tri", b"tri0", b"tri1",
            b"triand", b"trior", b"trireg",
        ],
        b'u' => &[b"unsigned", b"use", b"uwire"],
        b'v' => &[b"vectored"],
        b'w' => &[b"wait", b"wand", b"weak0", b"weak1", b"while", b"wor"],
        _ => &[],
    }
}

/// Whether the word is one of the words.
fn is_among(word: &[u8], words: &[&[u8]]) -> bool
    ensures { result ≡ list_any (bytes_eq word.now) (map (λ other. other.now) words.now) }
{
    for other in words {
        if word == *other {
            return true;
        }
    }
    false
}

/// Whether the word is a keyword of the language that stands for no construct of this profile.
pub fn is_construct(word: &[u8]) -> bool
    ensures { result ≡ is_construct word.now }
{
    if word.is_empty() {
        return false;
    }
    is_among(word, construct_words(word[0]))
}
