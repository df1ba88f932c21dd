//! The names of errors, as Linux has them (asm-generic/errno-base.h, asm-generic/errno.h).

use frame_words::name_of_error;
use std::test::Fail;

#[test]
fn errors_have_their_names(rt: HostRuntime) -> Result<(), Fail> {
    let rows = [
        (0, None),
        (1, Some("EPERM")),
        (11, Some("EAGAIN")),
        (35, Some("EDEADLK")),
        (38, Some("ENOSYS")),
        (40, Some("ELOOP")),
        (41, None),
        (44, Some("ECHRNG")),
        (45, Some("EL2NSYNC")),
        (58, None),
        (75, Some("EOVERFLOW")),
        (89, Some("EDESTADDRREQ")),
        (90, Some("EMSGSIZE")),
        (116, Some("ESTALE")),
        (133, Some("EHWPOISON")),
        (134, None),
        (4_294_967_295, None),
    ];
    for (number, name) in rows {
        assert_eq!(rt; name_of_error(number), name);
    }
    Ok(())
}
