ghost use Rattle.std.specs.Prelude.{◌≡◌, ◌≤◌, length, drop, take, [], MatchOption, not, true};
ghost use Rattle.std.specs.List.{prefix_len, list_all};
ghost use Rattle.input_core.specs.Lines.{fields_of, number_of, IsNextLine, IsNextField, is_allowed, is_graphic, is_blank, is_digit, is_feed, without_return};

/// The place where the line that begins at `at` ends, without its line feed and one carriage return before it,
/// and the place where the next line begins. `None` comes exactly where `at` is the length of the bytes.
pub fn next_line(bytes: &[u8], at: usize) -> Option<(usize, usize)>
    requires { at ≤ length bytes.now }
    ensures { MatchOption result (at ≡ length bytes.now) (IsNextLine bytes.now at) }
{
    if at == bytes.len() {
        return None;
    }
    let (_, rest) = bytes.split_at(at);
    let len = length_to_feed(rest);
    let (line, _) = rest.split_at(len);
    let end = at + length_without_return(line);
    let next = (at + len + 1).min(bytes.len());
    Some((end, next))
}

fn length_to_feed(bytes: &[u8]) -> usize
    ensures count { result ≡ prefix_len (λ b. not (is_feed b)) bytes.now }
    ensures within { result ≤ length bytes.now }
{
    for (i, b) in bytes.iter().enumerate() {
        if *b == b'\n' {
            return i;
        }
    }
    bytes.len()
}

fn length_without_return(line: &[u8]) -> usize
    ensures same { take result line.now ≡ without_return line.now }
    ensures within { result ≤ length line.now }
{
    if let Some(b'\r') = line.last() {
        line.len() - 1
    } else {
        line.len()
    }
}

/// The first place at or after `at` with a byte from 33 to 126, and the place after the run of such bytes that
/// begins there. `None` comes exactly where only blanks and tabs are left. Each byte of the line is a tab, a
/// blank or from 33 to 126.
pub fn next_field(line: &[u8], at: usize) -> Option<(usize, usize)>
    requires within { at ≤ length line.now }
    requires allowed { list_all is_allowed line.now ≡ true }
    ensures { MatchOption result (fields_of (drop at line.now) ≡ []) (IsNextField line.now at) }
{
    let (_, rest) = line.split_at(at);
    let from = at + blanks(rest);
    if from == line.len() {
        return None;
    }
    let (_, field) = line.split_at(from);
    Some((from, from + length_to_blank(field)))
}

/// Whether each byte of a line is a tab, a blank or from 33 to 126.
pub fn is_allowed_line(line: &[u8]) -> bool
    ensures { result ≡ list_all is_allowed line.now }
{
    line.iter().all(|b| is_allowed(*b))
}

fn is_allowed(b: u8) -> bool
    ensures { result ≡ is_allowed b }
{
    is_blank(b) || is_graphic(b)
}

fn is_graphic(b: u8) -> bool
    ensures { result ≡ is_graphic b }
{
    33 <= b && b <= 126
}

fn blanks(bytes: &[u8]) -> usize
    ensures count { result ≡ prefix_len is_blank bytes.now }
    ensures within { result ≤ length bytes.now }
{
    for (i, b) in bytes.iter().enumerate() {
        if !is_blank(*b) {
            return i;
        }
    }
    bytes.len()
}

fn length_to_blank(bytes: &[u8]) -> usize
    ensures count { result ≡ prefix_len (λ b. not (is_blank b)) bytes.now }
    ensures within { result ≤ length bytes.now }
{
    for (i, b) in bytes.iter().enumerate() {
        if is_blank(*b) {
            return i;
        }
    }
    bytes.len()
}

fn is_blank(b: u8) -> bool
    ensures { result ≡ is_blank b }
{
    b == b' ' || b == b'\t'
}

/// The value of a field of one to nine digits; leading zeros are allowed. `None` comes exactly for any other field.
#[tactic(auto, using(crate::proofs::LineLemmas::digit_steps))]
pub fn read_number(field: &[u8]) -> Option<u32>
    ensures { result ≡ number_of field.now }
{
    if field.is_empty() || field.len() > 9 {
        return None;
    }
    let mut number: u32 = 0;
    for b in field {
        if !is_digit(*b) {
            return None;
        }
        number = number * 10 + u32::from(*b - b'0');
    }
    Some(number)
}

fn is_digit(b: u8) -> bool
    ensures { result ≡ is_digit b }
{
    b.is_ascii_digit()
}
