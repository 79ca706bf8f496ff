ghost use Rattle.std.specs.Prelude.{List, Some, None, length, All, IfOk, IfErr};
ghost use Rattle.vlog_lex.specs.declared.token.Token.{Token as TokenOf};
ghost use Rattle.vlog_lex.specs.Cutting.{IsReading, AreTokens, IsWithin, RiseFrom, HasWord};
ghost use Rattle.ila_base.specs.Stops.{StopsFor};

use crate::cutting::cut;
use crate::token::Token;
use ila_base::limits::FILE_BYTES;
use ila_base::{LimitKind, NetFault, NetRefusal, NetStop, Place};
use std::alloc::Global;

/// The tokens of a structural netlist text (IEEE 1364-2005, clause 3), in order. White space,
/// comments, attributes, `` `timescale `` with the rest of its line, and a part from
/// `` `ifndef GLBL `` to the next `` `endif `` are skipped.
///
/// A text of more than 67,108,864 bytes is refused as N17 FileBytes, with 67108865, at 0:0. Any
/// other is refused at the first place where nothing begins, or a comment, string or attribute isn't
/// closed (N1); where a constant has a digit x, z or ? (N16); or where an identifier has more than
/// 1,024 bytes (N17 NameLength), or a number is above 4,294,967,295 or a constant wider than 128
/// bits (N17 Constant). A place is that of the first byte of what is refused; at one place the least
/// number counts.
pub fn tokens(alloc: Global, text: &[u8]) -> Result<Vec<Token>, NetStop>
    // The text is read to its end as these tokens, and as no others (`one_reading`, `one_list`).
    ensures found { IfOk result (λ tokens. IsReading text.now tokens.items None) }
    ensures whole { IfOk result (λ tokens. AreTokens text.now tokens.items) }
    // It is refused for its one fault.
    ensures refused { IfErr result (StopsFor (λ fault. (tokens : List TokenOf) × IsReading text.now tokens (Some fault))) }

    // Each token is a part of the text, behind the one before it.
    ensures within { IfOk result (λ tokens. All (IsWithin (length text.now)) tokens.items) }
    ensures rise { IfOk result (λ tokens. RiseFrom 0 tokens.items) }
    ensures words { IfOk result (λ tokens. All (λ token. HasWord token.kind) tokens.items) }
{
    if text.len() > FILE_BYTES {
        return Err(NetStop::Refused(NetFault {
            refusal: NetRefusal::Limit(LimitKind::FileBytes, FILE_BYTES as u64 + 1),
            place: Place::NOWHERE,
        }));
    }
    let tokens = cut(alloc, text)?;
    Ok(tokens)
}
