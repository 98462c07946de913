/// The sort of the first of these keywords that the text is, or the other sort where it is none: `keyword_or!(text;
/// b"SET" => Sort::Set, b";" => Sort::Semicolon; Sort::Other)`. It is `keyword_or` of the definitions.
#[macro_export]
macro_rules! keyword_or {
    ($text:expr; $($keyword:literal => $sort:expr),+ ; $other:expr) => {
        $(if $text == $keyword.as_slice() { $sort } else)+ { $other }
    };
}
