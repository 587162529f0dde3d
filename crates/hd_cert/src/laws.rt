// What the definition of the shown certificate determines and shows.
ghost use Rattle.std.specs.Prelude.{◌≡◌, Option};
ghost use Rattle.hd_map.specs.declared.types.Pos.{Pos};
ghost use Rattle.hd_map.specs.declared.types.Rank.{Rank};
ghost use Rattle.hd_map.specs.declared.types.SideName.{SideName};
ghost use Rattle.hd_map.specs.Map.{Map};
ghost use Rattle.hd_check.specs.declared.types.Certificate.{Certificate};
ghost use Rattle.hd_check.specs.Rules.{IsRight};
ghost use Rattle.hd_cert.specs.Shown.{AreTwoPits, IsShownCertificate};

/// Two pits and their saddle have one shown certificate at most.
pub fn shown_certificate_is_determined()
    ensures { (m : Map) (side : SideName) (a b : Pos) (saddle : Option Rank) (c d : Certificate)
        → IsShownCertificate m side a b saddle c → IsShownCertificate m side a b saddle d → c ≡ d }
{}

/// The certificate that is shown of two different pits and their saddle is right.
pub fn shown_certificate_is_right()
    ensures { (m : Map) (side : SideName) (a b : Pos) (saddle : Option Rank) (c : Certificate)
        → AreTwoPits m side a b → IsShownCertificate m side a b saddle c → IsRight m c }
{}
