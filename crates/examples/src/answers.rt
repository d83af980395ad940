// The tables of questions and answers, and how they are run.
use asking::answer::{Answer, answer_to};
use asking::room::MOST_TEXT;
use samples::piece::{Piece, file_of};
use std::alloc::{AllocError, Global};
use std::process::Abort;

// A wording, the pieces of the file that it is asked of, and the text that is due.
pub(crate) type Row<'a> = (&'a [u8], &'a [Piece<'a>], &'a [u8]);

// An input that asks a wording of the file of some pieces.
pub(crate) fn input_of(
    alloc: Global,
    wording: &[u8],
    pieces: &[Piece],
) -> Result<Vec<u8>, AllocError> {
    let file = file_of(alloc, pieces)?;
    let mut input = Vec::new(alloc);
    input.extend_from_slice(wording)?;
    input.extend_from_slice(b"\n")?;
    input.extend_from_slice(&file)?;
    Ok(input)
}

// Whether this text is what `answer_to` makes of this input, accepted just where it is an answer.
pub(crate) fn answers(alloc: Global, input: &[u8], text: &[u8]) -> Result<bool, AllocError> {
    let mut buffer = vec![in alloc; 0; MOST_TEXT]?;
    let Ok(answer) = answer_to(input, &mut buffer) else {
        return Ok(false);
    };
    let listed = matches!(answer, Answer::Listed(_));
    Ok(
        answer.length() == text.len()
            && buffer.starts_with(text)
            && listed == text.starts_with(b"e"),
    )
}

// Compares what is answered to each row with what is due.
pub(crate) fn compare(rt: &impl Abort, alloc: Global, rows: &[Row]) -> Result<(), AllocError> {
    for (place, (wording, pieces, text)) in rows.iter().enumerate() {
        let input = input_of(alloc, wording, pieces)?;
        assert!(rt; answers(alloc, &input, text)?, "row {place}");
    }
    Ok(())
}
