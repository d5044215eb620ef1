//! What a drawn clinic is: the bytes that `bench/clinic.py` writes for the same seed and number of visits.

use generated_clinic::generated;
use std::alloc::{AllocError, Global};
use std::test::Fail;

/// A seed, a number of visits, and the files of doctors, patients and visits, a clinic on each line: a file ends its lines by `;`.
const CASES: &str =
    "0 1 id,specialty,country;1,s1,c1; id,age,name;1,37,n1; id,day,purpose,doc,pat;1,31,p7,1,1;
999999999 9 id,specialty,country;1,s0,c1; id,age,name;1,36,n1;2,73,n2; id,day,purpose,doc,pat;1,40,p6,1,1;2,71,p5,1,2;3,102,p4,1,1;4,133,p3,1,2;5,164,p2,1,1;6,195,p1,1,2;7,226,p0,1,1;8,257,p7,1,2;9,288,p6,1,1;
7 20 id,specialty,country;1,s3,c1;2,s4,c2;3,s0,c0; id,age,name;1,44,n1;2,81,n2;3,18,n3;4,55,n4;5,92,n5; id,day,purpose,doc,pat;1,38,p6,3,1;2,69,p5,1,4;3,100,p4,2,2;4,131,p3,3,5;5,162,p2,1,3;6,193,p1,2,1;7,224,p0,3,4;8,255,p7,1,2;9,286,p6,2,5;10,317,p5,3,3;11,348,p4,1,1;12,14,p3,2,4;13,45,p2,3,2;14,76,p1,1,5;15,107,p0,2,3;16,138,p7,3,1;17,169,p6,1,4;18,200,p5,2,2;19,231,p4,3,5;20,262,p3,1,3;";

/// The first four texts of the script.
const TEXTS: &str = "SELECT visit.id, day FROM visit WHERE day < 67 AND purpose = 'p7';
SELECT visit.id, specialty FROM visit, doctor WHERE doc = doctor.id AND specialty = 's2' AND purpose = 'p0';
SELECT visit.id, age, country FROM visit, doctor, patient WHERE doc = doctor.id AND pat = patient.id AND age >= 6 AND country = 'c0';
SELECT doctor.id, country FROM doctor WHERE specialty <> 's4';
";

/// A file on one line.
fn line_of(alloc: Global, file: &[u8]) -> Result<Vec<u8>, AllocError> {
    let mut line = Vec::new(alloc);
    for byte in file {
        line.push(if *byte == b'\n' { b';' } else { *byte })?;
    }
    Ok(line)
}

#[test]
fn a_drawn_clinic_is_what_the_benchmark_writes(rt: HostRuntime) -> Result<(), Fail> {
    for case in CASES.split('\n') {
        let (seed, rest) = case.split_once(' ').unwrap_or((case, ""));
        let (visits, files) = rest.split_once(' ').unwrap_or((rest, ""));
        let (first, others) = files.split_once(' ').unwrap_or((files, ""));
        let (second, third) = others.split_once(' ').unwrap_or((others, ""));
        let drawn = generated(rt.alloc(), seed.parse::<u32>()?, visits.parse::<u32>()?, 4)?;
        let doctors = line_of(rt.alloc(), drawn.doctors.as_slice())?;
        assert!(rt; doctors.as_slice() == first.as_bytes(), "{case}");
        let patients = line_of(rt.alloc(), drawn.patients.as_slice())?;
        assert!(rt; patients.as_slice() == second.as_bytes(), "{case}");
        let rows = line_of(rt.alloc(), drawn.visits.as_slice())?;
        assert!(rt; rows.as_slice() == third.as_bytes(), "{case}");
        assert!(rt; drawn.script.as_slice() == TEXTS.as_bytes());
    }
    Ok(())
}
