// Who is at fault in a refused schedule: jobs and stints by their numbers, from 0. Nobody is where a schedule is refused for the host's
// memory or record, or for lists of unequal length.
#[derive(Clone, Copy, Debug, PartialEq, Eq)]
pub enum Fault {
    // 6: no job is listed.
    NoJob,
    // 6: the first job past the limit. 9 to 11: the first job that the number refuses.
    Job(u64),
    // 6: the first stint past the limit. 7 and 8: the first stint that the number refuses.
    Stint(u64),
    // 12: the package of the first job and the field of the second have a word in common; so the packages, and the fields, of two jobs.
    PackageField(u64, u64),
    Packages(u64, u64),
    Fields(u64, u64),
}
