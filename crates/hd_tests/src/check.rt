// The text of a certificate.
use crate::shared::expect_bytes;
use hd_check::{read_certificate, write_certificate};
use hd_list::List;
use hd_map::Pos;

const SADDLE: &str =
    "certificate D 8\nfrom 0 0\nto 2 0\nsaddle 1 0 5\npath 3\n0 0\n1 0\n2 0\ncut 1\n0 0\nend\n";

#[test]
fn a_certificate_is_written_as_it_was_read(rt: HostRuntime) {
    let certificate = read_certificate(rt.alloc(), SADDLE.as_bytes()).expect(&rt, "a text");
    assert!(rt; certificate.saddle == Some((Pos { x: 1, y: 0 }, 5)));
    let mut text = List::new(rt.alloc());
    write_certificate(&mut text, &certificate).expect(&rt, "memory");
    expect_bytes(&rt, text.as_slice(), SADDLE.as_bytes());
}
