//! The rows: calls of the tree, and commands for the shell.

/// Scenes with a blank line between them, each of which begins with its title and is played in a new
/// folder. A row is a command for the shell, or a call, its path and a word more. A path is below the
/// folder, or begins with a slash.
pub fn scenes() -> &'static str {
    SCENES
}

const SCENES: &str = "# A made file has its mode
sh mkdir d; ln -s d l; : >a
file n 6666
stat n
file n 600
file l 600
file no/n 600
file a/n 600
file l/n 600

# A write is read back
sh printf hello >a; mkdir d; ln -s d l; mkfifo p
write a 1:E
read a
file n 444
write n 0:one
read n
write n 5:
stat n
write no 0:x
write d 0:x
write l 0:x
write p 0:x

# A write leaves the set-id bits
file n 4755
write n 0:one
stat n
write n 8:
stat n
sync_file n
sh printf hello >g; chmod 2755 g; printf hello >s; chmod 4755 s; : >o; chmod 600 o
write g 0:j
stat g
write s 0:j
mode s 6711
write s 1:a
sync_file s
stat s
read s
write o 0:x
stat o

# A read finds what stands there now
sh printf hello >a; mkdir d; ln -s d l; mkfifo p
read a
read no
read d
read l
read p
read a
sh printf you >n
rename n a
read a
sh printf they >n; mv n a; chmod 644 a
stat a
read a

# A link says its text
sh : >a; mkdir d; ln -s d l
make_link m some/where
link m
link l
link a
link no
make_link m x
make_link a x
make_link l/m x

# A mode is set and synced
sh printf hello >a; mkdir d; : >d/x; chmod 644 d/x; ln -s d l; mkfifo p
mode a 7000
stat a
sync_file a
mode d 2750
stat d/x
sync_folder d
mode l 600
mode p 600
mode no 600
mode /proc/1/status 600

# A made folder has its mode
sh mkdir d; ln -s d l
folder n 2777
folder n/m 700
folder n 700
folder l 700
folder / 700
folder no/n 700
folder l/n 700
sh test $(stat -c %a n) = 2777

# A renaming moves and replaces
sh : >a; mkdir d; : >d/x; chmod 644 d/x; ln -s d l
rename no n
rename a a
rename a d
rename d a
rename d d/e
folder e 700
rename e d
rename d e
stat e/x
rename l/x n
rename / n
rename a /proc/n
rename /proc/1/status /proc/1/stat

# No open file outlives its name
sh printf hello >a; mkdir d
file d/n 600
rename d e
write d/n 0:x
write e/n 0:x
remove_file e/n
write e/n 0:x
file n 600
rename a n
write n 0:j
read n

# A folder is removed when empty
sh : >a; mkdir d; : >d/x; ln -s d l
remove_folder d
remove_file d/x
remove_folder d
remove_folder d
remove_folder a
remove_folder l
remove_folder /
remove_file /
remove_file /proc/1/status

# A file is synced
sh printf hello >a; mkdir d; ln -s d l; mkfifo p
sync_file a
write a 0:j
sync_file a
read a
sync_file d
sync_file l
sync_file p
sync_file no
sync_folder d
sync_folder a
sync_folder no
sync_folder p

# A listing has each name
sh printf hello >b; chmod 6640 b; TZ=UTC0 touch -t 197001010016.40 b; : >Z; mkdir -p f/g; ln -s f l
sh mkfifo -m 640 p
sh : >\"$(printf 'x\\377')\"
list
stat b
time b
stat p
list f
list b

# Names stand in the order of their bytes
sh : >photo-12é; : >photo-120; : >photo-12-b; : >photo-12-a; : >photo-12; : >photo-1; : >q; : >Q
list

# A link is no folder
sh : >b; mkdir -p f/g; ln -s f l; mkfifo -m 640 p
stat f/g/x
sh mv f h; ln -s h f
list l
list l/g
list b/x
list p
list f/g
remove_file h

# A link that came into a way since
sh mkdir -p f/g/h i/g/h; printf mine >f/g/h/x; printf theirs >i/g/h/x
read f/g/h/x
file f/g/h/made 600
read i/g/h/x
sh mv f away; ln -s i f
read f/g/h/x
stat f/g/h/x
stat f/g/h
list f/g/h
file f/g/h/y 600
write f/g/h/x 0:x
rename f/g/h/x i/x
remove_file f/g/h/x
folder f/g/h/z 700
sync_file f/g/h/x
write f/g/h/made 0:made
sync_file f/g/h/made
sh rm f; mv away f; test $(cat f/g/h/made) = made
read f/g/h/x
list f/g/h
list i/g/h

# Who may do what
sh mkdir shut fixed; : >fixed/x; chmod 600 shut; chmod 555 fixed; : >mute; chmod 200 mute
stat shut/x
file fixed/y 600
remove_file fixed/x
read mute
write mute 0:x
sync_file mute
sh chmod 755 fixed

# A mode that bars the sync is set only of what is open
sh : >a; : >mute; chmod 200 mute; mkdir box; chmod 300 box
mode mute 100
stat mute
mode box 100
sh test $(stat -c %a box) = 300
mode a 100
sync_file a
stat a
mode a 0
mode mute 400
mode mute 0
sync_file mute
stat mute
mode box 700
sync_folder box
mode box 100
sync_folder box
mode box 300
sh test $(stat -c %a box) = 100; chmod 700 box

# A folder that may not be opened is synced with all else
sh mkdir box; chmod 300 box
file box/n 600
sync_file box/n
rename box/n box/m
sync_folder box
sh test $(stat -c %a box) = 300; chmod 700 box";

/// Commands for the shell, each behind the folder in which it runs.
pub fn commands() -> &'static str {
    COMMANDS
}

const COMMANDS: &str = "/usr pwd; echo here >&2; cat; exit 3
/usr kill -9 $$
/usr head -c 1048576 /dev/zero; head -c 2000000 /dev/zero | tr '\\0' 1
/nowhere pwd";

/// What `stty size` might say.
pub fn sizes() -> [&'static str; 6] {
    ["24 80\n", "0 0\n", "65535 65536\n", "80\n", "24 80 2\n", ""]
}
