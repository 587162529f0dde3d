// The text of a pruning certificate, read in pieces and written.
use crate::shared::expect_bytes;
use hd_audit::{AuditReader, write_audit};
use hd_list::List;

const AUDIT: &str = "pruning H 12.5% 6\npoints 3\n10 - 10\n4 10 -\n4294967295 4 10\nend\n";

#[test]
fn a_pruning_certificate_is_written_as_it_was_read_wherever_its_text_is_cut(rt: HostRuntime) {
    let text = AUDIT.as_bytes();
    for cut in 0..=text.len() {
        let (front, back) = text.split_at(cut);
        let mut reader = AuditReader::new(rt.alloc());
        reader.feed(rt.alloc(), front).expect(&rt, "memory");
        reader.feed(rt.alloc(), back).expect(&rt, "memory");
        let audit = reader.finish(rt.alloc()).expect(&rt, "a text");
        let mut written = List::new(rt.alloc());
        write_audit(&mut written, &audit).expect(&rt, "memory");
        expect_bytes(&rt, written.as_slice(), text);
    }
}
