// What a right certificate shows.
ghost use Rattle.std.specs.Prelude.{◌≡◌, Ok};
ghost use Rattle.hd_map.specs.Map.{Map};
ghost use Rattle.hd_map.specs.Rank.{rank};
ghost use Rattle.hd_map.specs.Saddle.{SaddleIs};
ghost use Rattle.hd_map.specs.Sets.{under};
ghost use Rattle.hd_check.specs.declared.types.Certificate.{Certificate};
ghost use Rattle.hd_check.specs.declared.types.Verdict.{Verdict};
ghost use Rattle.hd_check.specs.Certified.{saddle_of};
ghost use Rattle.hd_check.specs.Reading.{certificate_of};
ghost use Rattle.hd_check.specs.Rules.{IsRight, IsVerdict};
ghost use Rattle.hd_check.specs.Text.{certificate_text};
ghost use Rattle.hd_check.specs.Writable.{IsWritable};

/// On any map a right certificate names the saddle of its two pits under its setting, and names none
/// only where no path joins them.
pub fn right_certificate_tells_the_saddle()
    ensures { (m : Map) (c : Certificate) → IsRight m c
        → SaddleIs (under c.adjacency m) c.side (rank m c.from) (rank m c.to) (saddle_of m c) }
{}

/// A certificate has one verdict at most on a map.
pub fn verdict_is_determined()
    ensures { (m : Map) (c : Certificate) (v w : Verdict) → IsVerdict m c v → IsVerdict m c w → v ≡ w }
{}

/// The reading of a written certificate is that certificate, where both lists have at most
/// 4,294,967,295 points and the path has none without a saddle.
pub fn written_certificate_reads_back()
    ensures { (c : Certificate) → IsWritable c → certificate_of (certificate_text c) ≡ Ok c }
{}
