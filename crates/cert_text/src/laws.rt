ghost use Rattle.std.specs.Prelude.{◌≡◌, ◌∷◌, [], ℕ, List, Some, Ok, Err, true, option_map};
ghost use Rattle.duality.specs.declared.leaf.Node.{Node};
ghost use Rattle.duality.specs.Packing.{Packing, Weights, Stage, Fixing};
ghost use Rattle.duality.specs.After.{after, are_right};
ghost use Rattle.cert_text.specs.declared.lines.Certificate.{Certificate};
ghost use Rattle.cert_text.specs.declared.lines.CertLine.{CertLine};
ghost use Rattle.cert_text.specs.Spelling.{line_of, line_text, in_bounds};
ghost use Rattle.cert_text.specs.Grammar.{State, step, fills, lines_of, is_writable};
ghost use Rattle.cert_text.specs.Sharing.{share, plain, none_named, plain_lines};
ghost use Rattle.cert_text.specs.Places.{follows, place_of};
ghost use Rattle.cert_text.specs.Text.{IsText, IsFaultyLine, certificate_of};

/// A line is read exactly where it is the spelling of a line inside its bounds, as that line.
pub fn line_laws()
    ensures spelled { (bytes : List ℕ) (l : CertLine) → line_of bytes ≡ Some l → (bytes ≡ line_text l) × (in_bounds l ≡ true) }
    ensures read { (l : CertLine) → in_bounds l ≡ true → line_of (line_text l) ≡ Some l }
{}

/// Bytes are read exactly where they are the text of a certificate inside the bounds, as that certificate;
/// a text is of one certificate. For other bytes the line that is named is the first line such that the
/// lines up to it, with their line feeds, begin no text.
pub fn text_laws()
    ensures read { (bytes : List ℕ) (c : Certificate) → IsText bytes c → certificate_of bytes ≡ Ok c }
    ensures spelled { (bytes : List ℕ) (c : Certificate) → certificate_of bytes ≡ Ok c → IsText bytes c }
    ensures faulty { (bytes : List ℕ) (n : ℕ) → certificate_of bytes ≡ Err n → IsFaultyLine bytes n }
    ensures one { (bytes : List ℕ) (c d : Certificate) → IsText bytes c → IsText bytes d → c ≡ d }
{}

/// The step of the text is that of its counts, so a reader that keeps counts alone stops at the same lines.
pub fn place_laws()
    ensures { (s : State) (l : CertLine) → option_map place_of (step s l) ≡ follows (place_of s) l }
{}

/// Nodes that are right one after the other and leave nothing to be proved are one whole tree.
pub fn tree_laws()
    ensures { (k : Packing) (w : Weights) (s : Stage) (f : Fixing) (ns : List Node) → are_right k w s (f ∷ []) ns ≡ true → after (f ∷ []) ns ≡ [] → fills 0 ns ≡ true }
{}

/// A certificate inside the bounds and its shared form have one plain form, which is inside the bounds. A
/// certificate of version 1 is its own plain form, one of version 2 its own shared form. What its lines mean,
/// a line that names a leaf being that leaf, are the lines of its plain form but for the version.
pub fn share_laws()
    ensures one { (c : Certificate) → is_writable c ≡ true → plain (share c) ≡ plain c }
    ensures writable { (c : Certificate) → is_writable c ≡ true → is_writable (plain c) ≡ true }
    ensures first { (c : Certificate) → is_writable c ≡ true → c.version ≡ 1 → plain c ≡ c }
    ensures second { (c : Certificate) → is_writable c ≡ true → c.version ≡ 2 → share c ≡ c }
    ensures lines { (c : Certificate) → is_writable c ≡ true → plain_lines (none_named 0) (lines_of c) ≡ lines_of (record (plain c) { version = c.version }) }
{}
