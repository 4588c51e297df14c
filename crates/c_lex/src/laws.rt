//! What the reader's states mean, in C's words.
ghost use Rattle.c_lex.specs.Laws.{NamesAre, NumbersAre, LineCommentsAre, SkippedLinesAre, BlockCommentsAre, ConstantsAre};

/// Carries the laws of pieces in its clauses, and does nothing: of which bytes each sort of piece is, and where it ends.
pub fn laws_of_pieces()
    ensures names { NamesAre }
    ensures numbers { NumbersAre }
    ensures line_comments { LineCommentsAre }
    ensures skipped_lines { SkippedLinesAre }
    ensures block_comments { BlockCommentsAre }
    ensures constants { ConstantsAre }
{}
